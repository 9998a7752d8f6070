// Judging what a call is lent, in the one order of refusals: a stage of it stands in each module, what calls have in common in
// `network`, the calls here.
#![tactic(auto)]

pub mod arcs;
pub mod boxes;
pub mod closures;
pub mod each;
pub mod ends;
pub mod modules;
pub mod network;
pub mod places;
pub mod sizes;

ghost use Rattle.std.specs.Prelude.{◌≡◌};
ghost use Rattle.walks.specs.Lent.{rows_of};
ghost use Rattle.passing.specs.Lent.{signs_of};
ghost use Rattle.judging.specs.Order.{search_judged, why_judged, build_judged, check_judged, update_judged};

use ends::{judge_change, judge_ends, judge_known_arc};
use network::{judge_network, judge_placed, judge_shaped};
use passing::Signs;
use rules::{Asked, Change, Refusal};
use walks::Network;

// A search from `s` to `t` by what is asked, with a route row of `places` places: 5, 2, 8, 14, 9, 18, 10, 11.
#[tactic(auto, unfolding(crate::specs::Order::search_judged, crate::specs::Order::searched_by))]
pub fn judge_search(
    asked: Asked,
    net: Network,
    signs: Signs,
    s: u32,
    t: u32,
    places: usize,
) -> Result<(), Refusal>
    ensures { result ≡ search_judged asked net.entry.n net.entry.m (rows_of net.entry) (signs_of signs.entry) s t places }
{
    judge_shaped(asked, net, signs, net.n as usize <= places)?;
    judge_ends(net.n, s, t)
}

// Why not by an arc: 5, 2, 8, 14, 11.
#[tactic(auto, unfolding(crate::specs::Order::why_judged))]
pub fn judge_why(net: Network, s: u32, t: u32, arc: u32) -> Result<(), Refusal>
    ensures { result ≡ why_judged net.entry.n net.entry.m (rows_of net.entry) s t arc }
{
    judge_network(net, true)?;
    judge_ends(net.n, s, t)?;
    judge_known_arc(net.m, arc)
}

// A build: 5, 2, 8, 14, 9, 18.
#[tactic(auto, unfolding(crate::specs::Order::build_judged))]
pub fn judge_build(asked: Asked, net: Network, signs: Signs) -> Result<(), Refusal>
    ensures { result ≡ build_judged asked net.entry.n net.entry.m (rows_of net.entry) (signs_of signs.entry) }
{
    judge_placed(asked, net, signs, true)
}

// A check before 13: 5, 2, 8, 14, 9, 18, 10.
#[tactic(auto, unfolding(crate::specs::Order::check_judged))]
pub fn judge_check(asked: Asked, net: Network, signs: Signs) -> Result<(), Refusal>
    ensures { result ≡ check_judged asked net.entry.n net.entry.m (rows_of net.entry) (signs_of signs.entry) }
{
    judge_shaped(asked, net, signs, true)
}

// An update: 5, 2, 8, 14, 9, 18, 10, 11, 5, 14.
#[tactic(auto, unfolding(crate::specs::Order::update_judged))]
pub fn judge_update(asked: Asked, net: Network, signs: Signs, change: Change) -> Result<(), Refusal>
    ensures { result ≡ update_judged asked net.entry.n net.entry.m (rows_of net.entry) (signs_of signs.entry) change.arc change.weight change.closure }
{
    judge_check(asked, net, signs)?;
    judge_change(net.m, change)
}
