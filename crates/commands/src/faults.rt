// Judging a line before anything is done.
ghost use Rattle.std.specs.Prelude.{◌≡◌};
ghost use Rattle.commands.specs.Words.{words_of};
ghost use Rattle.commands.specs.Commands.{line_judged, value_judged, values_judged};

use crate::Fault;
use crate::numbers::{read_byte, read_count, read_signed};
use crate::rows::Kind;
use crate::words::{are_apart, words_of};

// The faults of a line's bytes, before its words are looked at.
pub fn judge_line(line: &[u8]) -> Result<(), Fault>
    ensures { result ≡ line_judged line.now }
{
    if line.is_empty() {
        return Err(Fault::EmptyLine);
    }
    if line.contains(&b'\r') || line.contains(&b'\t') {
        return Err(Fault::ControlByte);
    }
    if !are_apart(line) {
        return Err(Fault::EmptyWord);
    }
    Ok(())
}

// One word where a row's number is to stand.
fn judge_value(word: &[u8], kind: Kind) -> Result<(), Fault>
    ensures { result ≡ value_judged kind word.now }
{
    match kind {
        Kind::Counts => {
            read_count(word)?;
        }
        Kind::Numbers => {
            read_signed(word)?;
        }
        Kind::Bytes => {
            read_byte(word)?;
        }
    }
    Ok(())
}

// All the words where a row's numbers are to stand, from the left.
pub fn judge_values(words: &[u8], kind: Kind) -> Result<(), Fault>
    ensures { result ≡ values_judged kind (words_of words.now) }
{
    for word in words_of(words) {
        judge_value(word, kind)?;
    }
    Ok(())
}
