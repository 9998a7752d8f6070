// The words of a line.
ghost use Rattle.std.specs.Prelude.{◌≡◌, drop, length};
ghost use Rattle.scan.specs.Pieces.{fields_of};
ghost use Rattle.scan.specs.Left.{pieces_left};
ghost use Rattle.commands.specs.Words.{words_of, word, after_word, none_empty};

use scan::pieces::{Pieces, after_first, piece_at, pieces_of};

// The words of a line, from the left.
pub fn words_of(s: &[u8]) -> Pieces<'_>
    ensures { pieces_left result ≡ words_of s.now }
{
    pieces_of(s, b' ')
}

// The word in a place, from 0; nothing where there are fewer.
pub fn word_at(s: &[u8], place: usize) -> &[u8]
    ensures { result.now ≡ word place (words_of s.now) }
{
    piece_at(s, b' ', place)
}

// What stands after the first space, or nothing.
pub fn after_word(s: &[u8]) -> &[u8]
    ensures value { result.now ≡ after_word s.now }
    ensures words { words_of result.now ≡ drop 1 (words_of s.now) }
{
    after_first(s, b' ')
}

// Whether single spaces divide the words, with none before or after.
pub fn are_apart(s: &[u8]) -> bool
    ensures { result ≡ none_empty (fields_of s.now) }
{
    s.split(|b| *b == b' ').all(|word| !word.is_empty())
}

// How many words there are.
pub fn count_words(s: &[u8]) -> usize
    ensures { result ≡ length (words_of s.now) }
{
    words_of(s).count()
}
