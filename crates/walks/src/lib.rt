// The network as it is lent, and as it is once it was judged. Walks, lengths, ties, routes, settled counts and S(e) are defined in
// specs/ and their theorems are in proofs/.
#![tactic(auto)]

pub mod tracks;
mod turning;

ghost use Rattle.std.specs.Prelude.{◌≡◌};
ghost use Rattle.walks.specs.Rows.{Sound};
ghost use Rattle.walks.specs.Lent.{rows_of};
ghost use Rattle.walks.specs.Judged.{rows_in};

use tracks::Tracks;

// A network of n nodes and m arcs as a caller lends it: for each arc its tail, head, weight and closure.
#[derive(Clone, Copy)]
pub struct Network<'a> {
    pub n: u32,
    pub m: u32,
    pub tails: &'a [u32],
    pub heads: &'a [u32],
    pub weights: &'a [u32],
    pub closures: &'a [u8],
}

impl<'a> Network<'a> {
    // The tracks of a network that was judged and is sound.
    pub fn tracks(self) -> Tracks<'a>
        requires { Sound self.n self.m (rows_of self) }
        ensures nodes { result.n ≡ self.entry.n }
        ensures arcs { result.m ≡ self.entry.m }
        ensures same { rows_in result ≡ rows_of self.entry }
    {
        Tracks {
            n: self.n as usize,
            m: self.m as usize,
            tails: self.tails,
            heads: self.heads,
            weights: self.weights,
            closures: self.closures,
        }
    }
}
