// A day's running list: the queries of a text, answered in order on one network and set of boxes.
#![tactic(auto)]

ghost use Rattle.walks.specs.Lent.{rows_of};
ghost use Rattle.daylist.specs.Paper.{paper};
ghost use Rattle.daylist.specs.Says.{DaySays};

use asking::answer_each;
use dimacs::read_p2p;
use judging::judge_check;
use passing::Signs;
use rules::{Asked, Refusal};
use walks::Network;

mod asking;
mod counting;

// Of a list that was run: how many queries had a route, how many had none, and the sum of the lengths found.
#[derive(Clone, Copy)]
pub struct Totals {
    pub found: u32,
    pub none: u32,
    pub sum: u64,
}

// Answers each query of a day's list by a search with boxes: the lengths go into the first K places of `answers`, in order,
// 4,294,967,295 for no route. The rows are judged once for the whole list.
pub fn answer_all(
    text: &[u8],
    net: Network,
    x: &[i32],
    y: &[i32],
    boxes: &[i32],
    answers: &mut [u32],
) -> Result<Totals, Refusal>
    ensures { DaySays text.now net.entry.n net.entry.m (rows_of net.entry) x.now y.now boxes.now answers.old (paper result) answers.new }
{
    let mut sources = [0; 256];
    let mut targets = [0; 256];
    let k = read_p2p(text, net.n, answers, &mut sources, &mut targets)?;
    let signs = Signs::of_boxes(x, y, boxes);
    judge_check(Asked::BOXES, net, signs)?;
    let totals = answer_each(k as usize, &sources, &targets, net.tracks(), signs, answers);
    Ok(totals)
}
