// One node settled.
ghost use Rattle.frontier.specs.Chain.{Chained};
ghost use Rattle.walks.specs.Judged.{rows_in};
ghost use Rattle.passing.specs.Sieving.{keeps_by};
ghost use Rattle.settling.specs.Settle.{settle_of};
ghost use Rattle.settling.specs.Front.{Front, Become};
ghost use Rattle.settling.specs.Stage.{Ready};

use crate::Labels;
use crate::task::Task;
use frontier::chain::Chain;
use frontier::tree::{FAR, put};

// Node `u` is marked and its key taken away, and each arc out of it that may be used offers its head a label.
pub fn settle_one(labels: &mut Labels, tree: &mut [u64; 1024], u: usize, task: Task, chain: &Chain)
    requires chained { Chained task.tracks.m task.tracks.tails.now chain.now.first chain.now.next }
    requires ready { Ready task.tracks.n labels.old u }
    requires front { Front labels.old tree.old }
    ensures { let T = task.entry.tracks in
        Become (settle_of (rows_in T) (keeps_by task.entry.sieve T.closures.now) T.m labels.old u) labels.new tree.new }
{
    let tracks = task.tracks;
    let at = u - 1;
    labels.settled[at] = true;
    put(tree, at, FAR);
    let l = labels.length[at];
    let k = labels.arcs[at];
    let mut j = chain.first[at] as usize;
    // the chain tells the next place, so no range counts the turns
    while j < tracks.m {
        if task.sieve.passes(tracks.closures, j + 1) {
            let v = tracks.heads[j] as usize;
            labels.offer(tree, v, l + tracks.weights[j], k + 1);
        }
        j = chain.next[j] as usize;
    }
}
