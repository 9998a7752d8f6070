// S(e), a node t at a time: the labelling from t in the reverse network tells for each arc e whether t is in S(e).
ghost use Rattle.std.specs.Prelude.{◌≡◌, ◌+◌, ◌<◌, ◌≤◌};
ghost use Rattle.frontier.specs.Chain.{Chained};
ghost use Rattle.walks.specs.Judged.{rows_in};
ghost use Rattle.settling.specs.LengthsTo.{on_shortest};
ghost use Rattle.drawing.specs.Drawn.{Drawn, mark_row};
ghost use Rattle.drawing.specs.Leads.{leads_at, leads_to, Marked};

use frontier::chain::Chain;
use walks::tracks::Tracks;

// Whether an arc of this weight, from a node of length `tail` to one of length `head`, is on a shortest walk. A node
// without a length has 4294967295 for it.
fn on_shortest(weight: u32, head: u32, tail: u32) -> bool
    ensures { result ≡ on_shortest weight head tail }
{
    (head < u32::MAX) & (weight as u64 + head as u64 == tail as u64)
}

// Whether t is in S(e), for the arc e at place j, by the lengths to t: it is open, its head has a length, and with the arc's weight
// that is its tail's.
fn leads(lengths: &[u32; 512], tracks: Tracks, j: usize) -> bool
    requires { j < tracks.m }
    ensures { result ≡ leads_at (rows_in tracks.entry) lengths.now (j + 1) }
{
    let head = tracks.heads[j] as usize;
    let tail = tracks.tails[j] as usize;
    (tracks.closures[j] == 0) & on_shortest(tracks.weights[j], lengths[head - 1], lengths[tail - 1])
}

// Marks those of the arcs 1..k that lead to t, by the lengths to t.
fn mark_arcs(lengths: &[u32; 512], k: usize, tracks: Tracks, marked: &mut [bool; 2048])
    requires { k ≤ tracks.m }
    ensures { Drawn mark_row k (Marked (leads_at (rows_in tracks.entry) lengths.now)) marked.old marked.new }
{
    for j in 0..k {
        marked[j] = leads(lengths, tracks, j);
    }
}

// Marks those of the arcs 1..k whose S(e) has t, by all arcs, which are lent chained by their heads. With tails and heads
// swapped: those by which a shortest walk from t ends.
pub fn mark_toward(t: usize, k: usize, tracks: Tracks, chain: &Chain, marked: &mut [bool; 2048])
    requires { (1 ≤ t) × (t ≤ tracks.n) × (k ≤ tracks.m) × Chained tracks.m tracks.heads.now chain.now.first chain.now.next }
    ensures { Drawn mark_row k (Marked (leads_to (rows_in tracks.entry) tracks.entry.n tracks.entry.m t)) marked.old marked.new }
{
    let labels = settling::run::label_all(t, tracks.turned(), chain);
    mark_arcs(&labels.length, k, tracks, marked);
}
