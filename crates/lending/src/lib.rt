// Lending: the console's desk, what is lent of its rows, and `lend`, which stores the values of a judged line.
#![tactic(auto)]

pub mod rows;
pub mod storing;
#[cfg(test)]
mod tests;

ghost use Rattle.std.specs.Prelude.{◌≡◌, drop, Ok, pos, replicate};
ghost use Rattle.commands.specs.Words.{words_of};
ghost use Rattle.commands.specs.Commands.{command_of};
ghost use Rattle.commands.specs.Rows.{kind_of, stretch_of};
ghost use Rattle.commands.specs.declared.Command.TheVariants.{Lend};
ghost use Rattle.commands.specs.declared.rows.Kind.TheVariants.{Counts, Numbers, Bytes};
ghost use Rattle.lending.specs.Stores.{part_at, all_lent};
ghost use Rattle.lending.specs.Lending.{afresh, lending};

use crate::rows::{Lent, clear_rows, part_of};
use crate::storing::store_words;
use commands::rows::{BYTES, COUNTS, Kind, NUMBERS, Row};
use commands::words::{after_word, count_words};
use rules::Sizes;

// What lies on the console's desk: the numbers n and m, what is lent of each row, and the stores with the rows.
#[derive(Drop)]
pub struct Desk {
    pub sizes: Sizes,
    pub lent: Lent,
    pub counts: [u32; COUNTS],
    pub numbers: [i32; NUMBERS],
    pub bytes: [u8; BYTES],
}

impl Desk {
    // All places of each row are lent, and 0 stands in each; n and m are 0.
    pub fn new() -> Desk
        ensures sizes { result.sizes ≡ record { n = 0; m = 0 } }
        ensures lent { result.lent ≡ all_lent }
        ensures counts { result.counts ≡ replicate COUNTS 0 }
        ensures numbers { result.numbers ≡ replicate NUMBERS (pos 0) }
        ensures bytes { result.bytes ≡ replicate BYTES 0 }
    {
        Desk {
            sizes: Sizes { n: 0, m: 0 },
            lent: Lent::all(),
            counts: [0; COUNTS],
            numbers: [0; NUMBERS],
            bytes: [0; BYTES],
        }
    }

    // `fresh`: all is as on a new desk.
    pub fn clear(&mut self)
        ensures { self.new ≡ afresh self.old }
    {
        self.sizes = Sizes { n: 0, m: 0 };
        self.lent = Lent::all();
        clear_rows(&mut self.counts, &mut self.numbers, &mut self.bytes);
    }

    // The lent places of a row of counts, of one of numbers, of one of bytes.
    pub fn counts_of(&self, row: Row) -> &[u32]
        requires { kind_of row ≡ Counts }
        ensures { result.now ≡ part_at self.now.lent (stretch_of row) self.now.counts }
    {
        part_of(&self.counts, self.lent, row)
    }

    pub fn numbers_of(&self, row: Row) -> &[i32]
        requires { kind_of row ≡ Numbers }
        ensures { result.now ≡ part_at self.now.lent (stretch_of row) self.now.numbers }
    {
        part_of(&self.numbers, self.lent, row)
    }

    pub fn bytes_of(&self, row: Row) -> &[u8]
        requires { kind_of row ≡ Bytes }
        ensures { result.now ≡ part_at self.now.lent (stretch_of row) self.now.bytes }
    {
        part_of(&self.bytes, self.lent, row)
    }

    // `lend`: the values that the line's words spell are stored in a row, and as many of its places are lent.
    pub fn lend(&mut self, line: &[u8], row: Row)
        requires { command_of line.now ≡ Ok (Lend row) }
        ensures { self.new ≡ lending row (drop 2 (words_of line.now)) self.old }
    {
        let words = after_word(after_word(line));
        let s = row.stretch();
        self.lent.most[s.number] = count_words(words);
        match s.kind {
            Kind::Counts => store_words(&mut self.counts, s.start, words),
            Kind::Numbers => store_words(&mut self.numbers, s.start, words),
            Kind::Bytes => store_words(&mut self.bytes, s.start, words),
        }
    }
}
