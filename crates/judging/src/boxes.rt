// Refusal 10: a box is not well shaped.
ghost use Rattle.std.specs.Prelude.{◌≡◌, ◌*◌, ◌≤◌, length};
ghost use Rattle.geometry.specs.Box.{sides_b, no_sides_b, well_shaped_b};
ghost use Rattle.geometry.specs.Sides.{as_box};
ghost use Rattle.judging.specs.Order.{shapes};

use crate::each::judge_each;
use geometry::sides::Sides;
use rules::{LEAST_COORDINATE, MOST_COORDINATE, Refusal};

// Whether two sides are within limits, and not reversed.
fn good_sides(a: i32, b: i32) -> bool
    ensures { result ≡ sides_b a b }
{
    (LEAST_COORDINATE <= a) & (a <= b) & (b <= MOST_COORDINATE)
}

// Whether two sides are those of the mark.
fn no_sides(a: i32, b: i32) -> bool
    ensures { result ≡ no_sides_b a b }
{
    (a == 1) & (b == 0)
}

// Whether a box is well shaped.
fn good_box(b: Sides) -> bool
    ensures { result ≡ well_shaped_b (as_box b) }
{
    (good_sides(b.left, b.right) & good_sides(b.low, b.high))
        | (no_sides(b.left, b.right) & no_sides(b.low, b.high))
}

// Refusal 10 of the lowest arc of 1..m whose box is not well shaped.
#[tactic(auto, using(crate::proofs::NextLaws::box_next))]
pub fn judge_boxes(m: u32, boxes: &[i32]) -> Result<(), Refusal>
    requires { 4 * m ≤ length boxes.now }
    ensures { result ≡ shapes m boxes.now }
{
    judge_each(
        m,
        |i| good_box(Sides::read(boxes, 4 * i)),
        |arc| Refusal::BadBox { arc },
    )
}
