// The search itself, over rows that were judged.
ghost use Rattle.std.specs.Prelude.{◌≤◌, length};
ghost use Rattle.walks.specs.Walk.{kept};
ghost use Rattle.walks.specs.Rows.{laid};
ghost use Rattle.walks.specs.Judged.{rows_in};
ghost use Rattle.passing.specs.Sieving.{keeps_by};
ghost use Rattle.search.specs.Paper.{paper};
ghost use Rattle.search.specs.Says.{Answers};

use crate::Found;
use rules::Refusal;
use settling::run::run;
use settling::task::Task;
use settling::trace::trace;

// The answer of a search by the arcs that may be used; the route goes into the lent row.
pub fn find(task: Task, route: &mut [u32]) -> Result<Found, Refusal>
    requires { (1 ≤ task.t) × (task.t ≤ task.tracks.n) × (task.tracks.n ≤ length route.old) }
    ensures { let tracks = task.entry.tracks in
        Answers (kept (keeps_by task.entry.sieve tracks.closures.now) (laid tracks.m (rows_in tracks))) tracks.n task.entry.s task.entry.t route.old (paper result) route.new }
{
    let outcome = run(task);
    let settled = outcome.count as u32;
    if !outcome.found {
        return Err(Refusal::NoWalk { settled });
    }
    let labels = outcome.labels;
    trace(&labels, task, route);
    Ok(Found {
        length: labels.length[task.t - 1],
        arcs: labels.arcs[task.t - 1],
        settled,
    })
}
