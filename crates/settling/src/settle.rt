// The settling step.
ghost use Rattle.std.specs.Prelude.{◌≡◌};
ghost use Rattle.frontier.specs.Chain.{Chained};
ghost use Rattle.settling.specs.Step.{outcome_of, Stands};

use crate::relax::settle_one;
use crate::task::Task;
use crate::{Labels, Outcome};
use frontier::chain::Chain;
use frontier::tree::nearest;

// The settling step, on labels by value: the run begins with them, and they go out with its outcome. One step is the whole run, since
// each step copies the labels. Node after node is settled until the next is the target or none is left.
pub fn settle(labels: Labels, tree: &mut [u64; 1024], task: Task, chain: &Chain) -> Outcome
    requires chained { Chained task.tracks.m task.tracks.tails.now chain.now.first chain.now.next }
    requires stands { Stands task 0 labels tree.old }
    ensures { result ≡ outcome_of task.entry }
{
    let mut labels = labels;
    let mut count = 0;
    while let Some(u) = nearest(tree) {
        if u == task.t {
            return Outcome {
                labels,
                count: count + 1,
                found: true,
            };
        }
        settle_one(&mut labels, tree, u, task, chain);
        count += 1;
    }
    Outcome {
        labels,
        count,
        found: false,
    }
}
