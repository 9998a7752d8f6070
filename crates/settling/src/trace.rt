// The route, traced back from the target by the labels.
ghost use Rattle.std.specs.Prelude.{◌≡◌, ◌≤◌, length, IfSome};
ghost use Rattle.walks.specs.Judged.{rows_in};
ghost use Rattle.frontier.specs.Chain.{Chained};
ghost use Rattle.passing.specs.Sieving.{keeps_by};
ghost use Rattle.settling.specs.Labels.{arcs_of};
ghost use Rattle.settling.specs.Trace.{fits, into_of, trace_of};

use crate::Labels;
use crate::task::Task;
use frontier::chain::Chain;

// Whether a step of weight w leads from the label (l, k) to (l2, k2).
#[tactic(auto, unfolding(crate::specs::Trace::fits))]
fn leads(l: u32, k: u32, w: u32, l2: u32, k2: u32) -> bool
    ensures { result ≡ fits l k w l2 k2 }
{
    l.checked_add(w) == Some(l2) && k.checked_add(1) == Some(k2)
}

// The lowest-numbered arc by which node `v` has its label, if any, among the arcs chained by their heads.
fn arc_into(labels: &Labels, v: usize, task: Task, chain: &Chain) -> Option<usize>
    requires { (1 ≤ v) × (v ≤ 512) × Chained task.tracks.m task.tracks.heads.now chain.now.first chain.now.next }
    ensures into { let T = task.entry.tracks in
        result ≡ into_of (rows_in T) (keeps_by task.entry.sieve T.closures.now) labels.now v T.m }
    ensures within { IfSome result (λ e. (1 ≤ e) × (e ≤ task.entry.tracks.m)) }
{
    let tracks = task.tracks;
    let l = labels.length[v - 1];
    let k = labels.arcs[v - 1];
    let mut j = chain.first[v - 1] as usize;
    // the chain tells the next place, so no range counts the turns
    while j < tracks.m {
        if task.sieve.passes(tracks.closures, j + 1) {
            let u = tracks.tails[j] as usize - 1;
            if leads(labels.length[u], labels.arcs[u], tracks.weights[j], l, k) {
                return Some(j + 1);
            }
        }
        j = chain.next[j] as usize;
    }
    None
}

// Writes the route to the task's target, source first, into the first places of `route`; the others keep their contents.
pub fn trace(labels: &Labels, task: Task, route: &mut [u32])
    requires { (1 ≤ task.t) × (task.t ≤ 512) × (arcs_of labels.now task.t ≤ length route.old) }
    ensures { let T = task.entry.tracks in
        let t = task.entry.t in
        route.new ≡ trace_of (rows_in T) (keeps_by task.entry.sieve T.closures.now) T.m labels.now (arcs_of labels.now t) t route.old }
{
    let tracks = task.tracks;
    let chain = Chain::link(tracks.m, tracks.heads);
    let count = labels.arcs[task.t - 1] as usize;
    let mut v = task.t;
    for k in (0..count).rev() {
        let Some(e) = arc_into(labels, v, task, &chain) else {
            return;
        };
        route[k] = e as u32;
        v = tracks.tails[e - 1] as usize;
    }
}
