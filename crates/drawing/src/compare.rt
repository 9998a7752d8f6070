// Boxes and masks compared with the nodes that they must hold.
ghost use Rattle.std.specs.Prelude.{◌≡◌, true, ◌≤◌, length};
ghost use Rattle.geometry.specs.Row.{Shaped};
ghost use Rattle.walks.specs.Judged.{rows_in};
ghost use Rattle.passing.specs.Asking.{Lent};
ghost use Rattle.passing.specs.Lent.{signs_of};
ghost use Rattle.passing.specs.Sieving.{keeps_by, RoomBy};
ghost use Rattle.drawing.specs.Drawn.{mark_of};
ghost use Rattle.drawing.specs.Missed.{misses_by, misses_node, FirstPlace, IsFirst};

use crate::mark::mark_toward;
use frontier::chain::Chain;
use passing::{Sieve, Signs};
use rules::Asked;
use walks::tracks::Tracks;

// An arc whose box or mask misses a node of its S(e), and that node.
#[derive(Clone, Copy)]
pub struct Miss {
    pub arc: u32,
    pub node: u32,
}

// The place of the first of the arcs 1..k that is marked and does not pass the tests.
fn first_miss(marked: &[bool; 2048], k: usize, closures: &[u8], sieve: Sieve) -> Option<usize>
    requires { (k ≤ 2048) × (k ≤ length closures.now) × RoomBy sieve k }
    ensures { FirstPlace (misses_by (mark_of marked.now) (keeps_by sieve.entry closures.now)) k result }
{
    (0..k).find(|e| marked[*e] && !sieve.passes(closures, *e + 1))
}

// The lowest arc whose box or mask misses a node of its S(e), and then its lowest such node; or that none misses any. One labelling
// for each node t, which looks only at arcs below the lowest found so far.
pub fn find_miss(asked: Asked, tracks: Tracks, signs: Signs) -> Option<Miss>
    requires { Lent asked tracks.n tracks.m (signs_of signs) × (asked.boxes ≡ true → Shaped tracks.m signs.boxes.now) }
    ensures { IsFirst (misses_node (rows_in tracks.entry) tracks.entry.n tracks.entry.m asked (signs_of signs.entry)) tracks.entry.n tracks.entry.m result }
{
    let chain = Chain::link(tracks.m, tracks.heads);
    let mut marked = [false; 2048];
    let mut below = tracks.m;
    let mut miss = None;
    for t in 0..tracks.n {
        mark_toward(t + 1, below, tracks, &chain, &mut marked);
        let sieve = signs.toward(asked, t + 1);
        if let Some(e) = first_miss(&marked, below, tracks.closures, sieve) {
            below = e;
            miss = Some(Miss {
                arc: (e + 1) as u32,
                node: (t + 1) as u32,
            });
        }
    }
    miss
}
