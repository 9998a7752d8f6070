// Boxes over lent rows of coordinates. Nodes and arcs are numbered from 1; the box of an arc is four numbers of
// the row: left, right, low, high.
#![tactic(auto)]

pub mod sides;

ghost use Rattle.std.specs.Prelude.{◌≡◌, ◌*◌, ◌≤◌, length};
ghost use Rattle.geometry.specs.Box.{WellShaped, mark, holds_b};
ghost use Rattle.geometry.specs.Hull.{taken};
ghost use Rattle.geometry.specs.Row.{box_of, with_box};

use sides::Sides;

// The box that holds nothing.
const MARK: Sides = Sides {
    left: 1,
    right: 0,
    low: 1,
    high: 0,
};

// Whether the box of an arc, which is well shaped, holds the place (x, y).
pub fn holds(boxes: &[i32], arc: usize, x: i32, y: i32) -> bool
    requires { (1 ≤ arc) × (4 * arc ≤ length boxes.now) × WellShaped (box_of boxes.now arc) }
    ensures { result ≡ holds_b (box_of boxes.now arc) x y }
{
    Sides::read(boxes, 4 * (arc - 1)).holds(x, y)
}

// The box of an arc becomes the mark, which holds nothing.
pub fn empty_box(boxes: &mut [i32], arc: usize)
    requires { (1 ≤ arc) × (4 * arc ≤ length boxes.old) }
    ensures { boxes.new ≡ with_box boxes.old arc mark }
{
    MARK.store(boxes, 4 * (arc - 1));
}

// The box of an arc, which may be the mark, takes in a place.
pub fn grow_box(boxes: &mut [i32], arc: usize, x: i32, y: i32)
    requires { (1 ≤ arc) × (4 * arc ≤ length boxes.old) }
    ensures { boxes.new ≡ with_box boxes.old arc (taken (box_of boxes.old arc) x y) }
{
    let at = 4 * (arc - 1);
    Sides::read(boxes, at).taking(x, y).store(boxes, at);
}
