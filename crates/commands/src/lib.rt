// The console's commands: what a line of words asks for, or the first fault of it.
#![tactic(auto)]

pub mod arguments;
pub mod faults;
pub mod numbers;
pub mod rows;
pub mod verbs;
pub mod words;

ghost use Rattle.std.specs.Prelude.{◌≡◌};
ghost use Rattle.commands.specs.Commands.{command_of};
ghost use Rattle.commands.specs.declared.Fault.TheVariants.{BeyondType};
ghost use Rattle.commands.specs.declared.Request.TheVariants as request;
ghost use Rattle.commands.specs.declared.Command.TheVariants.{Other};

use crate::arguments::ask;
use crate::faults::judge_line;
use crate::rows::Row;
use crate::verbs::{Format, Reading, takes, verb_of};
use crate::words::{after_word, count_words, word_at};
use rules::Change;
use std::num::TryFromIntError;

// Why a line is no command. Of several faults the first in this list is told.
#[derive(Clone, Copy)]
pub enum Fault {
    LongLine,
    EmptyLine,
    ControlByte,
    EmptyWord,
    NoCommand,
    WordCount,
    NoRow,
    LongRow,
    Misspelt,
    BeyondType,
    FewerLent,
}

// A number that its type cannot hold.
impl From<TryFromIntError> for Fault {
    ghost from_gives = { λ _ fault. fault ≡ BeyondType };

    fn from(_error: TryFromIntError) -> Fault {
        Fault::BeyondType
    }
}

// The calls on a network that has been lent.
#[derive(Clone, Copy)]
pub enum Call {
    Build,
    Check,
    Update(Change),
    Search(u32, u32),
    Boxed(u32, u32),
    Why(u32, u32, u32),
}

// What a line asks for that leaves the lent places as they are, and names no file. `show` may say how many places are shown.
#[derive(Clone, Copy)]
pub enum Request {
    SetN(u32),
    SetM(u32),
    Show(Row, Option<u32>),
    Write(Format),
    Call(Call),
    Help,
}

// What a line asks for. The values of `lend`, and the name of a file, are read from the line again.
#[derive(Clone, Copy)]
pub enum Command {
    Lend(Row),
    Fresh,
    Read(Reading),
    Save(Format),
    Other(Request),
}

impl From<Request> for Command {
    ghost from_gives = { λ request command. command ≡ Other request };

    fn from(request: Request) -> Command {
        Command::Other(request)
    }
}

impl From<Call> for Command {
    ghost from_gives = { λ call command. command ≡ Other (request.Call call) };

    fn from(call: Call) -> Command {
        Command::Other(Request::Call(call))
    }
}

// What a line asks for: it is judged whole, and nothing is stored yet.
pub fn command_of(line: &[u8]) -> Result<Command, Fault>
    ensures { result ≡ command_of line.now }
{
    judge_line(line)?;
    let verb = verb_of(word_at(line, 0), word_at(line, 1)).ok_or(Fault::NoCommand)?;
    if !takes(verb, count_words(line)) {
        return Err(Fault::WordCount);
    }
    ask(verb, after_word(line))
}
