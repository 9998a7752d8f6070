// What is lent of the console's rows.
ghost use Rattle.std.specs.Prelude.{◌≡◌, ◌≤◌, length, take};
ghost use Rattle.commands.specs.Rows.{stretch_of, kind_of, places_of, size_of};
ghost use Rattle.lending.specs.Stores.{stores, cleared, lent_at, all_lent, part_at, put_at};

use commands::rows::{ROWS, Row};

// How many places of each row are lent at most, from the first on.
#[derive(Clone, Copy)]
pub struct Lent {
    pub most: [usize; ROWS],
}

impl Lent {
    // All places of each row.
    pub fn all() -> Lent
        ensures { result ≡ all_lent }
    {
        Lent {
            most: [65536; ROWS],
        }
    }

    // How many places of a row are lent.
    pub fn places_of(self, row: Row) -> usize
        ensures { result ≡ lent_at self (stretch_of row) }
    {
        let s = row.stretch();
        self.most[s.number].min(s.places)
    }
}

// The lent places of a row, in the store of its kind.
pub fn part_of<T>(store: &[T], lent: Lent, row: Row) -> &[T]
    requires { size_of (kind_of row) ≤ length store.now }
    ensures { result.now ≡ part_at lent (stretch_of row) store.now }
{
    let a = row.stretch().start;
    &store[a..a + lent.places_of(row)]
}

// Copies the lent places of a row, and answers how many they are.
pub fn fetch<T: Copy>(store: &[T], lent: Lent, row: Row, to: &mut [T]) -> usize
    requires whole { size_of (kind_of row) ≤ length store.now }
    requires room { places_of row ≤ length to.old }
    ensures count { result ≤ length to.new }
    ensures copied { take result to.new ≡ part_at lent (stretch_of row) store.now }
{
    let values = part_of(store, lent, row);
    to[..values.len()].copy_from_slice(values);
    values.len()
}

// Puts values into the first places of a row.
pub fn give<T: Copy>(store: &mut [T], row: Row, values: &[T])
    requires whole { size_of (kind_of row) ≤ length store.old }
    requires few { length values.now ≤ places_of row }
    ensures { store.new ≡ put_at (stretch_of row) values.now store.old }
{
    let a = row.stretch().start;
    store[a..a + values.len()].copy_from_slice(values);
}

// `fresh`: 0 stands in all places of all rows.
pub fn clear_rows(counts: &mut [u32], numbers: &mut [i32], bytes: &mut [u8])
    ensures { stores counts.new numbers.new bytes.new ≡ cleared (stores counts.old numbers.old bytes.old) }
{
    counts.fill(0);
    numbers.fill(0);
    bytes.fill(0);
}
