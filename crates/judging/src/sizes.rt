// Refusals 5 and 2: n and m, and the lengths of the rows.
ghost use Rattle.std.specs.Prelude.{◌≡◌};
ghost use Rattle.rules.specs.Judging.{passes};
ghost use Rattle.walks.specs.Lent.{rows_of};
ghost use Rattle.passing.specs.Lent.{signs_of};
ghost use Rattle.judging.specs.Order.{sizes, lengths, arc_rows_long, signs_long};

use passing::Signs;
use rules::{ARCS, Asked, NODES, Refusal};
use walks::Network;

// Fine where a test passed, else a refusal.
pub fn unless(passed: bool, refusal: Refusal) -> Result<(), Refusal>
    ensures { result ≡ passes passed refusal }
{
    if passed { Ok(()) } else { Err(refusal) }
}

// Refusal 5 where n or m is beyond its limits.
pub fn judge_sizes(n: u32, m: u32) -> Result<(), Refusal>
    ensures { result ≡ sizes n m }
{
    unless(
        (1 <= n) & (n <= NODES) & (m <= ARCS),
        Refusal::BeyondLimits { line: 0 },
    )
}

// Refusal 2 where a row is not long enough.
pub fn judge_lengths(long: bool) -> Result<(), Refusal>
    ensures { result ≡ lengths long }
{
    unless(long, Refusal::RowTooShort)
}

// Whether the arc rows have m places.
pub fn arc_rows_long(net: Network) -> bool
    ensures { result ≡ arc_rows_long net.entry.m (rows_of net.entry) }
{
    let places = net.m as usize;
    (places <= net.tails.len()) & (places <= net.heads.len()) & (places <= net.weights.len())
}

// Whether the rows of what is asked are long enough, and the others: the coordinate rows have n places and the box row 4m, the module
// row has n places and the mask row m.
pub fn signs_long(n: u32, m: u32, asked: Asked, signs: Signs, others: bool) -> bool
    ensures { result ≡ signs_long n m asked (signs_of signs.entry) others }
{
    let nodes = n as usize;
    let arcs = m as usize;
    let boxes_long = (nodes <= signs.nodes.x.len())
        & (nodes <= signs.nodes.y.len())
        & (4 * arcs <= signs.boxes.len());
    let masks_long = (nodes <= signs.nodes.modules.len()) & (arcs <= signs.masks.len());
    (!asked.boxes | boxes_long) & (!asked.masks | masks_long) & others
}
