// The four sides of a box, and the row that they stand in.
ghost use Rattle.std.specs.Prelude.{◌≡◌, ◌+◌, ◌<◌, ◌&&◌, length, int_le};
ghost use Rattle.geometry.specs.Box.{WellShaped, holds_b};
ghost use Rattle.geometry.specs.Hull.{taken};
ghost use Rattle.geometry.specs.Row.{box_from, put_from};
ghost use Rattle.geometry.specs.Shifted.{shifted, Span};
ghost use Rattle.geometry.specs.Sides.{as_box};

// Four numbers of the row, in its order.
#[derive(Clone, Copy)]
pub struct Sides {
    pub left: i32,
    pub right: i32,
    pub low: i32,
    pub high: i32,
}

// A coordinate shifted to be unsigned, which keeps the order.
fn shift(z: i32) -> u32
    ensures { result ≡ shifted z }
{
    (z as i64 + 2147483648) as u32
}

// Whether a coordinate is from one side to the other, by one comparison: less the first side, wrapping, it is below the width.
// Sides 1 and 0 have the width 0, so nothing is between them.
fn between(from: i32, to: i32, z: i32) -> bool
    requires { Span from to }
    ensures { result ≡ int_le from z && int_le z to }
{
    let start = shift(from);
    shift(z).wrapping_sub(start) < (shift(to) + 1).wrapping_sub(start)
}

impl Sides {
    // The four numbers at a place.
    pub fn read(row: &[i32], at: usize) -> Sides
        requires { at + 3 < length row.now }
        ensures { as_box result ≡ box_from row.now at }
    {
        Sides {
            left: row[at],
            right: row[at + 1],
            low: row[at + 2],
            high: row[at + 3],
        }
    }

    // They are stored at a place.
    pub fn store(self, row: &mut [i32], at: usize)
        requires { at + 3 < length row.old }
        ensures { row.new ≡ put_from row.old at (as_box self) }
    {
        row[at] = self.left;
        row[at + 1] = self.right;
        row[at + 2] = self.low;
        row[at + 3] = self.high;
    }

    // Whether a well-shaped box holds the place (x, y).
    pub fn holds(self, x: i32, y: i32) -> bool
        requires { WellShaped (as_box self) }
        ensures { result ≡ holds_b (as_box self) x y }
    {
        between(self.left, self.right, x) & between(self.low, self.high, y)
    }

    // A box, which may be the mark, that takes in a place.
    #[tactic(auto, unfolding(crate::specs::Hull::taken))]
    pub fn taking(self, x: i32, y: i32) -> Sides
        ensures { as_box result ≡ taken (as_box self) x y }
    {
        if self.left <= self.right {
            Sides {
                left: self.left.min(x),
                right: self.right.max(x),
                low: self.low.min(y),
                high: self.high.max(y),
            }
        } else {
            Sides {
                left: x,
                right: x,
                low: y,
                high: y,
            }
        }
    }
}
