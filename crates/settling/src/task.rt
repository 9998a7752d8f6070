// What a run is asked.
ghost use Rattle.std.specs.Prelude.{◌≤◌};
ghost use Rattle.passing.specs.Sieving.{RoomBy};
ghost use Rattle.passing.proofs.RoomIsFact.{room_prop};

use passing::Sieve;
use walks::tracks::Tracks;

// From node s to node t, along the open arcs that pass a sieve. Target 0 is never found: all that can be reached is labelled.
#[derive(Clone, Copy)]
pub struct Task<'a> {
    pub s: usize,
    pub t: usize,
    pub tracks: Tracks<'a>,
    pub sieve: Sieve<'a>,
    ghost source: { (1 ≤ s) × (s ≤ tracks.n) },
    ghost room: { RoomBy sieve tracks.m } by { room_prop sieve tracks.m },
}
