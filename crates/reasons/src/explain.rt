// The reason, where the route is known.
ghost use Rattle.walks.specs.Rows.{network};
ghost use Rattle.walks.specs.Judged.{rows_in};
ghost use Rattle.reasons.specs.Paper.{told};
ghost use Rattle.reasons.specs.Says.{Answers};
ghost use Rattle.reasons.specs.Steps.{Asked, Known};

use crate::Reason;
use crate::shortest::shortest;
use walks::tracks::Tracks;

// The first reason that is true of an arc. The route from `s` to `t`, of length `best`, is lent.
pub fn explain(tracks: Tracks, s: usize, t: usize, arc: u32, best: u32, route: &[u32]) -> Reason
    requires { let R = rows_in tracks in Asked tracks.n tracks.m R s t arc × Known (network tracks.m R) s t best route.now }
    ensures { Answers (network tracks.entry.m (rows_in tracks.entry)) tracks.entry.n s t arc (told result) }
{
    let at = arc as usize - 1;
    if tracks.closures[at] != 0 {
        return Reason::Closed;
    }
    let Some(before) = shortest(s, tracks.tails[at] as usize, tracks) else {
        return Reason::CutOff;
    };
    // from the arc's end to the target, by the arcs turned round
    let Some(after) = shortest(t, tracks.heads[at] as usize, tracks.turned()) else {
        return Reason::CutOff;
    };
    let ways = before + after;
    let through = ways + tracks.weights[at];
    if best < through {
        return Reason::Longer {
            excess: through - best,
        };
    }
    if route.contains(&arc) {
        return Reason::OnRoute;
    }
    Reason::Tied
}
