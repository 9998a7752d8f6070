// Shortest lengths, by all open arcs.
ghost use Rattle.std.specs.Prelude.{◌≤◌};
ghost use Rattle.walks.specs.Rows.{network};
ghost use Rattle.walks.specs.Judged.{rows_in};
ghost use Rattle.reasons.specs.Steps.{IsWay};

use passing::Sieve;
use settling::run::run;
use settling::task::Task;
use walks::tracks::Tracks;

// The length of a shortest walk from `s` to `t` by all open arcs, if there is a walk.
pub fn shortest(s: usize, t: usize, tracks: Tracks) -> Option<u32>
    requires { (1 ≤ s) × (s ≤ tracks.n) × (1 ≤ t) × (t ≤ tracks.n) }
    ensures { IsWay (network tracks.entry.m (rows_in tracks.entry)) s t result }
{
    let sieve = Sieve::open();
    let outcome = run(Task {
        s,
        t,
        tracks,
        sieve,
    });
    if !outcome.found {
        return None;
    }
    Some(outcome.labels.length[t - 1])
}
