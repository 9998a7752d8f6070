// The numbers that words spell are stored in a row.
ghost use Rattle.std.specs.Prelude.{◌≡◌, ◌+◌, ◌≤◌, ℕ, List, map, length, drop, take, ◌++◌, Result, Ok};
ghost use Rattle.commands.specs.Words.{words_of};
ghost use Rattle.commands.specs.Commands.{number, signed, byte, value_judged, values_judged};
ghost use Rattle.commands.specs.declared.Fault.{Fault};
ghost use Rattle.commands.specs.declared.rows.Kind.{Kind};
ghost use Rattle.commands.specs.declared.rows.Kind.TheVariants.{Counts, Numbers, Bytes};
ghost use Rattle.lending.specs.Stores.{stored};
ghost use Rattle.lending.specs.Lending.{value_in};

use commands::Fault;
use commands::numbers::{read_byte, read_count, read_signed};
use commands::words::words_of;

// The numbers of a kind of row.
pub trait Spelt: Copy + Drop {
    ghost kind: { Kind };

    // what a word spells
    ghost value: { List ℕ → Self };

    // A word that was judged is a number.
    fn read(word: &[u8]) -> Result<Self, Fault>
        ensures { value_judged kind word.now ≡ Ok tt → result ≡ Ok (value word.now) };
}

// Numbers of a kind of row, with what each word is, a misspelt one too.
pub trait Worded: Copy + Drop {
    ghost kind: { Kind };

    // a word as a number, or its fault
    ghost reads: { List ℕ → Result Self Fault };

    // the number that a judged word spells
    ghost value: { List ℕ → Self };

    // Reads a word. One that was judged is a number.
    fn of_word(word: &[u8]) -> Result<Self, Fault>
        ensures reads { result ≡ reads word.now }
        ensures value { value_judged kind word.now ≡ Ok tt → result ≡ Ok (value word.now) };
}

// Such numbers are `Spelt`, and there too `read` says what each word is.
impl<T: Worded> Spelt for T {
    ghost kind = { T.kind };

    ghost value = { T.value };

    fn read(word: &[u8]) -> Result<T, Fault>
        ensures reads { result ≡ T.reads word.now }
        ensures value { value_judged T.kind word.now ≡ Ok tt → result ≡ Ok (T.value word.now) }
    {
        T::of_word(word)
    }
}

impl Worded for u32 {
    ghost kind = { Counts };

    ghost reads = { number };

    ghost value = { value_in Counts };

    fn of_word(word: &[u8]) -> Result<u32, Fault> {
        read_count(word)
    }
}

impl Worded for i32 {
    ghost kind = { Numbers };

    ghost reads = { signed };

    ghost value = { value_in Numbers };

    fn of_word(word: &[u8]) -> Result<i32, Fault> {
        read_signed(word)
    }
}

impl Worded for u8 {
    ghost kind = { Bytes };

    ghost reads = { byte };

    ghost value = { value_in Bytes };

    fn of_word(word: &[u8]) -> Result<u8, Fault> {
        read_byte(word)
    }
}

// Stores the numbers that judged words spell, from a place on.
pub fn store_words<T: Spelt>(store: &mut [T], start: usize, words: &[u8])
    requires judged { values_judged T.kind (words_of words.now) ≡ Ok tt }
    requires room { start + length (words_of words.now) ≤ length store.old }
    ensures { store.new ≡ take start store.old ++ stored (map T.value (words_of words.now)) (drop start store.old) }
{
    for (k, word) in words_of(words).enumerate() {
        store[start + k] = T::read(word).unwrap();
    }
}
