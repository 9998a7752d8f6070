// The route search over rows as they are lent, by what is asked of each arc.
#![tactic(auto)]

ghost use Rattle.walks.specs.Lent.{rows_of};
ghost use Rattle.search.specs.Paper.{paper};
ghost use Rattle.passing.specs.Lent.{signs_of};
ghost use Rattle.search.specs.Says.{SearchBy};

use find::find;
use judging::judge_search;
use passing::Signs;
use rules::{Asked, Refusal};
use settling::task::Task;
use walks::Network;

pub mod find;

// A route that was found: its length, its arc count and the settled count.
#[derive(Clone, Copy)]
pub struct Found {
    pub length: u32,
    pub arcs: u32,
    pub settled: u32,
}

// The search from `s` to `t` by the open arcs that pass the tests asked: boxes that hold `t`, masks that have the module of `t`.
// With none asked, by all open arcs. The route's arc numbers go into `route`, source first.
pub fn search(
    asked: Asked,
    net: Network,
    signs: Signs,
    s: u32,
    t: u32,
    route: &mut [u32],
) -> Result<Found, Refusal>
    ensures { SearchBy asked net.entry.n net.entry.m (rows_of net.entry) (signs_of signs.entry) s t route.old (paper result) route.new }
{
    judge_search(asked, net, signs, s, t, route.len())?;
    let task = Task {
        s: s as usize,
        t: t as usize,
        tracks: net.tracks(),
        sieve: signs.toward(asked, t as usize),
    };
    find(task, route)
}
