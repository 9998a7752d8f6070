// Refusal 8: an arc row holds a bad node or weight.
ghost use Rattle.std.specs.Prelude.{◌≡◌, ◌≤◌, length};
ghost use Rattle.walks.specs.Lent.{rows_of};
ghost use Rattle.judging.specs.Order.{good_arc, arcs};

use crate::each::judge_each;
use rules::{Refusal, WEIGHT};
use walks::Network;

// Whether an arc's ends are nodes and its weight is within the limit.
fn good_arc(n: u32, tail: u32, head: u32, weight: u32) -> bool
    ensures { result ≡ good_arc n tail head weight }
{
    (1 <= tail) & (tail <= n) & (1 <= head) & (head <= n) & (weight <= WEIGHT)
}

// Refusal 8 of the lowest arc of 1..m that is not good.
pub fn judge_arcs(net: Network) -> Result<(), Refusal>
    requires { (net.m ≤ length net.tails.now) × (net.m ≤ length net.heads.now) × (net.m ≤ length net.weights.now) }
    ensures { result ≡ arcs net.entry.n net.entry.m (rows_of net.entry) }
{
    judge_each(
        net.m,
        |i| good_arc(net.n, net.tails[i], net.heads[i], net.weights[i]),
        |arc| Refusal::BadArc { arc },
    )
}
