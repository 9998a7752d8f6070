// What calls have in common. `others` tells whether the other rows that a call is lent are long enough.
ghost use Rattle.std.specs.Prelude.{◌≡◌};
ghost use Rattle.walks.specs.Lent.{rows_of};
ghost use Rattle.passing.specs.Lent.{signs_of};
ghost use Rattle.judging.specs.Order.{arcs_judged, network_judged, placed_by, shaped_by};

use crate::arcs::judge_arcs;
use crate::boxes::judge_boxes;
use crate::closures::judge_closures;
use crate::modules::judge_modules;
use crate::places::judge_places;
use crate::sizes::{arc_rows_long, judge_lengths, judge_sizes, signs_long};
use passing::Signs;
use rules::{Asked, Refusal};
use walks::Network;

// Arcs, whose closures are not read: 5, 2, 8.
#[tactic(auto, unfolding(crate::specs::Order::arcs_judged))]
pub fn judge_arc_rows(net: Network, others: bool) -> Result<(), Refusal>
    ensures { result ≡ arcs_judged net.entry.n net.entry.m (rows_of net.entry) others }
{
    judge_sizes(net.n, net.m)?;
    judge_lengths(arc_rows_long(net) & others)?;
    judge_arcs(net)
}

// A network: 5, 2, 8, 14.
#[tactic(auto, unfolding(crate::specs::Order::network_judged))]
pub fn judge_network(net: Network, others: bool) -> Result<(), Refusal>
    ensures { result ≡ network_judged net.entry.n net.entry.m (rows_of net.entry) others }
{
    let closures_long = net.m as usize <= net.closures.len();
    judge_arc_rows(net, closures_long & others)?;
    judge_closures(net.m, net.closures)
}

// A network with the nodes' places and modules, and rows for what is asked: 5, 2, 8, 14, 9, 18.
#[tactic(auto, unfolding(crate::specs::Order::placed_by))]
pub fn judge_placed(asked: Asked, net: Network, signs: Signs, others: bool) -> Result<(), Refusal>
    ensures { result ≡ placed_by (network_judged net.entry.n net.entry.m (rows_of net.entry)) net.entry.n net.entry.m asked (signs_of signs.entry) others }
{
    judge_network(net, signs_long(net.n, net.m, asked, signs, others))?;
    if asked.boxes {
        judge_places(net.n, signs.nodes.x, signs.nodes.y)?;
    }
    if asked.masks {
        judge_modules(net.n, signs.nodes.modules)?;
    }
    Ok(())
}

// A network with what is asked: 5, 2, 8, 14, 9, 18, 10.
#[tactic(auto, unfolding(crate::specs::Order::shaped_by))]
pub fn judge_shaped(asked: Asked, net: Network, signs: Signs, others: bool) -> Result<(), Refusal>
    ensures { result ≡ shaped_by (network_judged net.entry.n net.entry.m (rows_of net.entry)) net.entry.n net.entry.m asked (signs_of signs.entry) others }
{
    judge_placed(asked, net, signs, others)?;
    if asked.boxes {
        judge_boxes(net.m, signs.boxes)?;
    }
    Ok(())
}
