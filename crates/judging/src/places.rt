// Refusal 9: a bad coordinate in a row.
ghost use Rattle.std.specs.Prelude.{◌≡◌, ◌&&◌, ◌≤◌, length};
ghost use Rattle.geometry.specs.Box.{within_b};
ghost use Rattle.judging.specs.Order.{coordinates};

use crate::each::judge_each;
use rules::{LEAST_COORDINATE, MOST_COORDINATE, Refusal};

// Whether both coordinates of a node are within limits.
fn good_place(x: i32, y: i32) -> bool
    ensures { result ≡ within_b x && within_b y }
{
    ((LEAST_COORDINATE <= x) & (x <= MOST_COORDINATE))
        & ((LEAST_COORDINATE <= y) & (y <= MOST_COORDINATE))
}

// Refusal 9 of the lowest node of 1..n with a coordinate beyond the limits.
pub fn judge_places(n: u32, x: &[i32], y: &[i32]) -> Result<(), Refusal>
    requires { (n ≤ length x.now) × (n ≤ length y.now) }
    ensures { result ≡ coordinates n x.now y.now }
{
    judge_each(
        n,
        |i| good_place(x[i], y[i]),
        |node| Refusal::BadCoordinate { node },
    )
}
