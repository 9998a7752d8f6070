// A plan from its files: `net.gr` and `net.co` are read, and the boxes are built. `boxes` and `journeys` begin so.
#![tactic(auto)]

mod reading;
mod trouble;

ghost use Rattle.std.specs.Prelude.{◌≤◌, ◌≡◌, length, OnOk};
ghost use Rattle.walks.specs.Lent.{rows_of};
ghost use Rattle.walks.specs.Rows.{rows};
ghost use Rattle.files.specs.File.{Within, held_of};
ghost use Rattle.loading.specs.Loading.{blank, plan, plan_of, Loads, is_graph};

use files::read_file;
use reading::{graph_into, places_into};
use rules::Sizes;
use std::rt::Files;
pub use trouble::{Trouble, Unusable, put_trouble};
use walks::Network;

// A network with the places of its nodes and the boxes of its arcs.
#[derive(Drop)]
pub struct Plan {
    pub sizes: Sizes,
    pub tails: [u32; 2048],
    pub heads: [u32; 2048],
    pub weights: [u32; 2048],
    pub closures: [u8; 2048],
    pub x: [i32; 512],
    pub y: [i32; 512],
    pub boxes: [i32; 8192],
}

impl Plan {
    // A plan whose rows hold zeros.
    pub fn blank() -> Plan
        ensures { plan_of result ≡ blank }
    {
        Plan {
            sizes: Sizes { n: 0, m: 0 },
            tails: [0; 2048],
            heads: [0; 2048],
            weights: [0; 2048],
            closures: [0; 2048],
            x: [0; 512],
            y: [0; 512],
            boxes: [0; 8192],
        }
    }

    // The network, as it is lent.
    pub fn network(&self) -> Network
        ensures sizes { (result.n ≡ self.now.sizes.n) × (result.m ≡ self.now.sizes.m) }
        ensures rows { rows_of result ≡ (plan_of self.now).arcs }
        ensures long { (length result.tails.now ≡ 2048) × (length result.heads.now ≡ 2048) × (length result.weights.now ≡ 2048) }
    {
        Network {
            n: self.sizes.n,
            m: self.sizes.m,
            tails: &self.tails,
            heads: &self.heads,
            weights: &self.weights,
            closures: &self.closures,
        }
    }

    // Fills a plan from what was read of the two files.
    pub fn load(&mut self, gr: Option<&[u8]>, co: Option<&[u8]>) -> Result<(), Unusable>
        ensures loads { Loads (plan_of self.old) (held_of gr.entry) (held_of co.entry) result (plan_of self.new) }
        ensures small { OnOk result (self.new.sizes.m ≤ 2048) }
    {
        load(
            gr,
            co,
            &mut self.sizes,
            &mut self.tails,
            &mut self.heads,
            &mut self.weights,
            &mut self.closures,
            &mut self.x,
            &mut self.y,
            &mut self.boxes,
        )
    }
}

// Fills rows that are lent, of any lengths, from what was read of the two files. A row that is too short is told in the answer.
pub fn load(
    gr: Option<&[u8]>,
    co: Option<&[u8]>,
    sizes: &mut Sizes,
    tails: &mut [u32],
    heads: &mut [u32],
    weights: &mut [u32],
    closures: &mut [u8],
    x: &mut [i32],
    y: &mut [i32],
    boxes: &mut [i32],
) -> Result<(), Unusable>
    ensures loads { Loads (plan sizes.old (rows tails.old heads.old weights.old closures.old) x.old y.old boxes.old) (held_of gr.entry) (held_of co.entry) result (plan sizes.new (rows tails.new heads.new weights.new closures.new) x.new y.new boxes.new) }
    ensures small { OnOk result (sizes.new.m ≤ 2048) }
{
    graph_into(gr, sizes, tails, heads, weights, closures).map_err(Unusable::Graph)?;
    let net = Network {
        n: sizes.n,
        m: sizes.m,
        tails,
        heads,
        weights,
        closures,
    };
    places_into(co, net, x, y, boxes).map_err(Unusable::Places)
}

// Whether what was read of `net.gr` is a graph.
fn is_graph(gr: Option<&[u8]>) -> bool
    ensures { result ≡ is_graph (held_of gr.entry) }
{
    Plan::blank().read_graph(gr).is_ok()
}

// How much was read of `net.co`, which is opened only after `net.gr` was judged.
pub fn read_places(rt: &impl Files, gr: Option<&[u8]>, co: &mut [u8]) -> Option<usize>
    ensures { Within (length co.new) result }
{
    if !is_graph(gr) {
        return None;
    }
    read_file(rt, b"net.co", co)
}
