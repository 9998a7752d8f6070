// How many queries had a route, how many had none, and the sum of the lengths.
ghost use Rattle.std.specs.Prelude.{◌≡◌, ◌*◌, ◌≤◌, ◌<◌, MatchOption};
ghost use Rattle.daylist.specs.Steps.{counted};

use crate::Totals;

// The mark of no route: longer than any.
pub const NO_ROUTE: u32 = 4294967295;

impl Totals {
    // The totals with one answer more: a length, or no route.
    pub fn with(self, answer: Option<u32>) -> Totals
        requires { (self.found < 256) × (self.none < 256) × (self.sum ≤ 256 * 511000000) }
        ensures { result ≡ counted self answer }
    {
        match answer {
            Some(length) => Totals {
                found: self.found + 1,
                sum: self.sum + u64::from(length),
                ..self
            },
            None => Totals {
                none: self.none + 1,
                ..self
            },
        }
    }
}
