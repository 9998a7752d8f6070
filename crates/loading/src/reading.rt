// The two files of a plan, one after the other.
ghost use Rattle.std.specs.Prelude.{◌≤◌, List, ℤ, OnOk};
ghost use Rattle.walks.specs.Rows.{rows};
ghost use Rattle.files.specs.File.{held_of};
ghost use Rattle.loading.specs.Loading.{plan, plan_of, plan_on, ReadsGraph, ReadsPlaces};

use crate::{Plan, Trouble};
use boxwork::build_boxes;
use dimacs::{read_co, read_gr};
use rules::Sizes;
use walks::Network;

// The network is read into lent rows from what was read of `net.gr`. No other row of a plan is looked at.
pub(crate) fn graph_into(
    gr: Option<&[u8]>,
    sizes: &mut Sizes,
    tails: &mut [u32],
    heads: &mut [u32],
    weights: &mut [u32],
    closures: &mut [u8],
) -> Result<(), Trouble>
    ensures reads { (x y boxes : List ℤ) → ReadsGraph (plan sizes.old (rows tails.old heads.old weights.old closures.old) x y boxes) (held_of gr.entry) result (plan sizes.new (rows tails.new heads.new weights.new closures.new) x y boxes) }
    ensures small { OnOk result (sizes.new.m ≤ 2048) }
{
    let text = gr.ok_or(Trouble::Unread)?;
    *sizes = read_gr(text, tails, heads, weights, closures)?;
    Ok(())
}

// The places of the nodes of a network are read into lent rows from what was read of `net.co`, then the boxes are built.
pub(crate) fn places_into(
    co: Option<&[u8]>,
    net: Network,
    x: &mut [i32],
    y: &mut [i32],
    boxes: &mut [i32],
) -> Result<(), Trouble>
    ensures { ReadsPlaces (plan_on net.entry x.old y.old boxes.old) (held_of co.entry) result (plan_on net.entry x.new y.new boxes.new) }
{
    let text = co.ok_or(Trouble::Unread)?;
    read_co(text, net.n, x, y)?;
    build_boxes(net, x, y, boxes)?;
    Ok(())
}

impl Plan {
    // The network is read from what was read of `net.gr`.
    pub fn read_graph(&mut self, gr: Option<&[u8]>) -> Result<(), Trouble>
        ensures reads { ReadsGraph (plan_of self.old) (held_of gr.entry) result (plan_of self.new) }
        ensures small { OnOk result (self.new.sizes.m ≤ 2048) }
    {
        graph_into(
            gr,
            &mut self.sizes,
            &mut self.tails,
            &mut self.heads,
            &mut self.weights,
            &mut self.closures,
        )
    }

    // The places of its nodes are read from what was read of `net.co`, then the boxes are built.
    pub fn read_places(&mut self, co: Option<&[u8]>) -> Result<(), Trouble>
        ensures { ReadsPlaces (plan_of self.old) (held_of co.entry) result (plan_of self.new) }
    {
        let net = Network {
            n: self.sizes.n,
            m: self.sizes.m,
            tails: &self.tails,
            heads: &self.heads,
            weights: &self.weights,
            closures: &self.closures,
        };
        places_into(co, net, &mut self.x, &mut self.y, &mut self.boxes)
    }
}
