// What stands after a command's first word.
ghost use Rattle.std.specs.Prelude.{◌≡◌};
ghost use Rattle.commands.specs.Words.{words_of, word};
ghost use Rattle.commands.specs.Commands.{number, asked};
ghost use Rattle.commands.specs.declared.verbs.Verb.TheVariants.{Lend, Show};

use crate::faults::judge_values;
use crate::numbers::{read_byte, read_count};
use crate::rows::row_of;
use crate::verbs::Verb;
use crate::words::{after_word, count_words, word_at};
use crate::{Call, Command, Fault, Request};
use rules::Change;

// The word in a place as a number without sign.
fn number_at(words: &[u8], place: usize) -> Result<u32, Fault>
    ensures { result ≡ number (word place (words_of words.now)) }
{
    read_count(word_at(words, place))
}

// `lend`: the row's name, then its values.
fn lend_of(words: &[u8]) -> Result<Command, Fault>
    ensures { result ≡ asked Lend (words_of words.now) }
{
    let row = row_of(word_at(words, 0)).ok_or(Fault::NoRow)?;
    let values = after_word(words);
    let stretch = row.stretch();
    if stretch.places < count_words(values) {
        return Err(Fault::LongRow);
    }
    judge_values(values, stretch.kind)?;
    Ok(Command::Lend(row))
}

// `show`: the row's name, and perhaps a count.
fn show_of(words: &[u8]) -> Result<Command, Fault>
    ensures { result ≡ asked Show (words_of words.now) }
{
    let row = row_of(word_at(words, 0)).ok_or(Fault::NoRow)?;
    if count_words(words) < 2 {
        return Ok(Request::Show(row, None).into());
    }
    Ok(Request::Show(row, Some(number_at(words, 1)?)).into())
}

// The command of a line whose first word is `verb` and whose other words are `words`.
pub fn ask(verb: Verb, words: &[u8]) -> Result<Command, Fault>
    ensures { result ≡ asked verb (words_of words.now) }
{
    match verb {
        Verb::N => Ok(Request::SetN(number_at(words, 0)?).into()),
        Verb::M => Ok(Request::SetM(number_at(words, 0)?).into()),
        Verb::Lend => lend_of(words),
        Verb::Show => show_of(words),
        Verb::Read(reading) => Ok(Command::Read(reading)),
        Verb::Build => Ok(Call::Build.into()),
        Verb::Check => Ok(Call::Check.into()),
        Verb::Update => {
            let arc = number_at(words, 0)?;
            let weight = number_at(words, 1)?;
            let closure = read_byte(word_at(words, 2))?;
            let change = Change {
                arc,
                weight,
                closure,
            };
            Ok(Call::Update(change).into())
        }
        Verb::Search => Ok(Call::Search(number_at(words, 0)?, number_at(words, 1)?).into()),
        Verb::Boxed => Ok(Call::Boxed(number_at(words, 0)?, number_at(words, 1)?).into()),
        Verb::Why => {
            let s = number_at(words, 0)?;
            let t = number_at(words, 1)?;
            let arc = number_at(words, 2)?;
            Ok(Call::Why(s, t, arc).into())
        }
        Verb::Write(format) => Ok(Request::Write(format).into()),
        Verb::Save(format) => Ok(Command::Save(format)),
        Verb::Fresh => Ok(Command::Fresh),
        Verb::Help => Ok(Request::Help.into()),
    }
}
