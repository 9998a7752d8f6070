// The queries of a list, answered in order over rows that were judged.
ghost use Rattle.std.specs.Prelude.{◌≤◌, length};
ghost use Rattle.dimacs.specs.Accepted.{P2pLimits};
ghost use Rattle.frontier.specs.Chain.{Chained};
ghost use Rattle.walks.specs.Judged.{rows_in};
ghost use Rattle.daylist.specs.Steps.{Lent, Queried, AllAnswered};

use crate::Totals;
use crate::counting::NO_ROUTE;
use frontier::chain::Chain;
use passing::Signs;
use rules::Asked;
use settling::run::run_along;
use settling::task::Task;
use walks::tracks::Tracks;

// The length that the search with boxes from `s` to `t` finds, if there is a route. The chain is that of the arcs by their tails.
fn ask(s: usize, t: usize, tracks: Tracks, signs: Signs, chain: &Chain) -> Option<u32>
    requires { Lent tracks.n tracks.m (rows_in tracks) signs.nodes.x.now signs.nodes.y.now signs.boxes.now × Chained tracks.m tracks.tails.now chain.now.first chain.now.next × (1 ≤ s) × (s ≤ tracks.n) × (1 ≤ t) × (t ≤ tracks.n) }
    ensures { let G = signs.entry in Queried tracks.entry.n tracks.entry.m (rows_in tracks.entry) G.nodes.x.now G.nodes.y.now G.boxes.now s t result }
{
    let sieve = signs.toward(Asked::BOXES, t);
    let task = Task {
        s,
        t,
        tracks,
        sieve,
    };
    let outcome = run_along(task, chain);
    if !outcome.found {
        return None;
    }
    Some(outcome.labels.length[t - 1])
}

// Answers the first k queries. The arcs are chained once for all of them.
pub fn answer_each(
    k: usize,
    sources: &[u32; 256],
    targets: &[u32; 256],
    tracks: Tracks,
    signs: Signs,
    answers: &mut [u32],
) -> Totals
    requires { Lent tracks.n tracks.m (rows_in tracks) signs.nodes.x.now signs.nodes.y.now signs.boxes.now × P2pLimits tracks.n k sources.now targets.now × (256 ≤ length answers.old) }
    ensures { let G = signs.entry in AllAnswered tracks.entry.n tracks.entry.m (rows_in tracks.entry) G.nodes.x.now G.nodes.y.now G.boxes.now k sources.now targets.now answers.old answers.new result }
{
    let chain = Chain::link(tracks.m, tracks.tails);
    let mut totals = Totals {
        found: 0,
        none: 0,
        sum: 0,
    };
    for i in 0..k {
        let (s, t) = (sources[i] as usize, targets[i] as usize);
        let answer = ask(s, t, tracks, signs, &chain);
        answers[i] = answer.unwrap_or(NO_ROUTE);
        totals = totals.with(answer);
    }
    totals
}
