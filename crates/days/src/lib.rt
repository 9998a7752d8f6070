// `p2p`: a day's list, read from a file, is answered on the lent rows, with a copy of the row `answers`.
#![tactic(auto)]

ghost use Rattle.std.specs.Prelude.{◌≤◌, length};
ghost use Rattle.walks.specs.Lent.{rows_of};
ghost use Rattle.files.specs.File.{held_of};
ghost use Rattle.commands.specs.declared.verbs.Reading.TheVariants as reading;
ghost use Rattle.calls.specs.Calls.{sizes_of};
ghost use Rattle.calls.specs.Texts.{RunsDay};
ghost use Rattle.desk.specs.Requests.{Reads};

use commands::rows::Row;
use daylist::answer_all;
use desk::network;
use lending::Desk;
use lending::rows::{fetch, give};
use pages::{PAGE, Page};
use replies::answers::put_day;
use walks::Network;
use wording::put_no_file;

// The queries of what was read of a file, answered on rows, and the reply.
fn run_day(
    page: &mut Page<PAGE>,
    text: Option<&[u8]>,
    net: Network,
    x: &[i32],
    y: &[i32],
    boxes: &[i32],
    answers: &mut [u32],
)
    ensures runs { RunsDay (held_of text.entry) (sizes_of net.entry) (rows_of net.entry) x.now y.now boxes.now answers.old page.new answers.new }
    ensures few { length page.new ≤ 1000 }
{
    let Some(text) = text else {
        put_no_file(page);
        return;
    };
    let day = answer_all(text, net, x, y, boxes, answers);
    put_day(page, day);
}

pub fn day(page: &mut Page<PAGE>, desk: &mut Desk, text: Option<&[u8]>)
    ensures reads { Reads (held_of text.entry) desk.old reading.P2p page.new desk.new }
    ensures few { length page.new ≤ 1000 }
{
    let mut answers = [0; 512];
    let k = fetch(&desk.counts, desk.lent, Row::Answers, &mut answers);
    run_day(
        page,
        text,
        network(desk),
        desk.numbers_of(Row::X),
        desk.numbers_of(Row::Y),
        desk.numbers_of(Row::Boxes),
        &mut answers[..k],
    );
    give(&mut desk.counts, Row::Answers, &answers[..k]);
}
