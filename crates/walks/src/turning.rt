// Every arc turned round.
ghost use Rattle.std.specs.Prelude.{◌≡◌};
ghost use Rattle.walks.specs.Rows.{turned};
ghost use Rattle.walks.specs.Judged.{rows_in};

use crate::tracks::Tracks;

impl<'a> Tracks<'a> {
    // The same tracks with every arc turned round.
    pub fn turned(self) -> Tracks<'a>
        ensures nodes { result.n ≡ self.entry.n }
        ensures arcs { result.m ≡ self.entry.m }
        ensures turned { rows_in result ≡ turned (rows_in self.entry) }
    {
        Tracks {
            n: self.n,
            m: self.m,
            tails: self.heads,
            heads: self.tails,
            weights: self.weights,
            closures: self.closures,
        }
    }
}
