// "Why not by the bridge?": the reason that an arc is not on the route.
#![tactic(auto)]

ghost use Rattle.walks.specs.Lent.{rows_of};
ghost use Rattle.reasons.specs.Paper.{paper};
ghost use Rattle.reasons.specs.Says.{WhySays};

use explain::explain;
use judging::judge_why;
use passing::Sieve;
use rules::Refusal;
use search::find::find;
use settling::task::Task;
use walks::Network;

mod explain;
mod shortest;

// Why an arc is not on the route: it is closed; no walk leads over it; the best walk over it is longer, by the excess; another
// walk as short was picked; or it is on the route.
#[derive(Clone, Copy)]
pub enum Reason {
    Closed,
    CutOff,
    Longer { excess: u32 },
    Tied,
    OnRoute,
}

// Why the route from `s` to `t`, by all open arcs, does not use an arc: the first reason that is true. Or why the question was refused.
pub fn why(net: Network, s: u32, t: u32, arc: u32) -> Result<Reason, Refusal>
    ensures { WhySays net.entry.n net.entry.m (rows_of net.entry) s t arc (paper result) }
{
    judge_why(net, s, t, arc)?;
    let tracks = net.tracks();
    let (s, t) = (s as usize, t as usize);
    let sieve = Sieve::open();
    let mut route = [0; 512];
    let found = find(
        Task {
            s,
            t,
            tracks,
            sieve,
        },
        &mut route,
    )?;
    let arcs = &route[..found.arcs as usize];
    Ok(explain(tracks, s, t, arc, found.length, arcs))
}
