// What a request does with the console's desk: definitions in specs/ and laws in proofs/, and the network that is lent on it.
#![tactic(auto)]

ghost use Rattle.std.specs.Prelude.{◌≡◌};
ghost use Rattle.walks.specs.Lent.{rows_of};
ghost use Rattle.calls.specs.Calls.{sizes_of};
ghost use Rattle.desk.specs.Desk.{arc_rows};

use commands::rows::Row;
use lending::Desk;
use walks::Network;

// The network in the lent places of its rows.
pub fn network(desk: &Desk) -> Network
    ensures sizes { sizes_of result ≡ desk.now.sizes }
    ensures rows { rows_of result ≡ arc_rows desk.now }
{
    Network {
        n: desk.sizes.n,
        m: desk.sizes.m,
        tails: desk.counts_of(Row::Tails),
        heads: desk.counts_of(Row::Heads),
        weights: desk.counts_of(Row::Weights),
        closures: desk.bytes_of(Row::Closed),
    }
}
