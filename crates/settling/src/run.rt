// The run: node after node is settled.
ghost use Rattle.std.specs.Prelude.{◌≡◌, ◌≤◌};
ghost use Rattle.frontier.specs.Chain.{Chained};
ghost use Rattle.walks.specs.Rows.{is_open};
ghost use Rattle.walks.specs.Judged.{rows_in};
ghost use Rattle.settling.specs.Run.{labels_of};
ghost use Rattle.settling.specs.Step.{outcome_of};

use crate::settle::settle;
use crate::task::Task;
use crate::{Labels, Outcome};
use frontier::chain::Chain;
use frontier::tree::{FAR, key, put};
use passing::Sieve;
use walks::tracks::Tracks;

// Settles node after node from the source on, until the next is the target or none is left, along the arcs chained by their tails.
pub fn run_along(task: Task, chain: &Chain) -> Outcome
    requires { Chained task.tracks.m task.tracks.tails.now chain.now.first chain.now.next }
    ensures { result ≡ outcome_of task.entry }
{
    let labels = Labels::start(task.s);
    let mut tree = [FAR; 1024];
    put(&mut tree, task.s - 1, key(0, 0, task.s - 1));
    settle(labels, &mut tree, task, chain)
}

// The same, with the arcs chained here.
pub fn run(task: Task) -> Outcome
    ensures { result ≡ outcome_of task.entry }
{
    run_along(task, &Chain::link(task.tracks.m, task.tracks.tails))
}

// The labels of all that can be reached from `s`, by all open arcs, which are lent chained by their tails. On tracks that are turned
// round: of all that leads to `s`.
pub fn label_all(s: usize, tracks: Tracks, chain: &Chain) -> Labels
    requires { (1 ≤ s) × (s ≤ tracks.n) × Chained tracks.m tracks.tails.now chain.now.first chain.now.next }
    ensures { result ≡ labels_of (rows_in tracks.entry) (is_open tracks.entry.closures.now) tracks.entry.n tracks.entry.m s }
{
    let task = Task {
        s,
        t: 0,
        tracks,
        sieve: Sieve::open(),
    };
    run_along(task, chain).labels
}
