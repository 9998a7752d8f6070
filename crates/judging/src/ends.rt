// Refusal 11, of a source, target or arc that is not in the network, 5 of a new weight, and 14 of a new closure.
ghost use Rattle.std.specs.Prelude.{◌≡◌};
ghost use Rattle.judging.specs.Order.{ends, known_arc, change};

use crate::sizes::unless;
use rules::{Change, Refusal, WEIGHT};

// Refusal 11 where source or target is not a node.
pub fn judge_ends(n: u32, s: u32, t: u32) -> Result<(), Refusal>
    ensures { result ≡ ends n s t }
{
    unless(
        (1 <= s) & (s <= n) & (1 <= t) & (t <= n),
        Refusal::NotInNetwork,
    )
}

// Refusal 11 where there is no such arc.
pub fn judge_known_arc(m: u32, arc: u32) -> Result<(), Refusal>
    ensures { result ≡ known_arc m arc }
{
    unless((1 <= arc) & (arc <= m), Refusal::NotInNetwork)
}

// Refusal 11 where there is no such arc, 5 where its new weight is beyond the limit, and 14 where its new closure is neither 0 nor 1.
pub fn judge_change(m: u32, update: Change) -> Result<(), Refusal>
    ensures { result ≡ change m update.arc update.weight update.closure }
{
    judge_known_arc(m, update.arc)?;
    unless(update.weight <= WEIGHT, Refusal::BeyondLimits { line: 0 })?;
    unless(update.closure <= 1, Refusal::BadClosure { arc: update.arc })
}
