// Numbers of a kind of row: the machine's, and one of a crate's own.
ghost use Rattle.commands.specs.Commands.{number};
ghost use Rattle.commands.specs.declared.rows.Kind.TheVariants.{Counts};
ghost use Rattle.lending.specs.Lending.{count_in};

use crate::storing::{Spelt, Worded, store_words};
use commands::Fault;
use commands::faults::judge_values;
use commands::numbers::read_count;
use commands::rows::Kind;
use commands::words::count_words;

// A count of trains. Of a word that was not judged it says nothing.
#[derive(Clone, Copy)]
struct Trains {
    count: u32,
}

impl Spelt for Trains {
    ghost kind = { Counts };

    ghost value = { λ word. record { count = count_in (number word) } };

    #[tactic(auto, unfolding(crate::specs::Lending::count_in))]
    fn read(word: &[u8]) -> Result<Trains, Fault> {
        let count = read_count(word)?;
        Ok(Trains { count })
    }
}

// The count of trains that a word spells.
fn trains_in(word: &[u8]) -> Option<u32> {
    Trains::read(word).ok().map(|trains| trains.count)
}

#[test]
fn a_word_is_read(rt: HostRuntime) {
    assert_eq!(rt; trains_in(b"12"), Some(12));
    assert_eq!(rt; u32::read(b"4294967295").ok(), Some(4294967295));
    assert_eq!(rt; i32::read(b"-7").ok(), Some(-7));
    assert_eq!(rt; u8::of_word(b"255").ok(), Some(255));
    for word in [b"".as_slice(), b"-", b"x1", b"4294967296"] {
        assert!(rt; u32::read(word).is_err());
        assert!(rt; i32::read(word).is_err());
        assert!(rt; u8::read(word).is_err());
        assert!(rt; u32::of_word(word).is_err());
    }
}

#[test]
fn words_are_stored_from_a_place_on(rt: HostRuntime) {
    let words = b"12 0 4294967295";
    assert!(rt; judge_values(words, Kind::Counts).is_ok());
    assert!(rt; count_words(words) == 3);
    let mut counts = [9; 5];
    store_words(&mut counts, 1, words);
    assert_eq!(rt; counts, [9, 12, 0, 4294967295, 9]);
    let mut all = [Trains { count: 9 }; 5];
    store_words(&mut all, 1, words);
    assert_eq!(rt; all.map(|trains| trains.count), counts);
}
