// A line is answered: its reply is put on the page.
ghost use Rattle.std.specs.Prelude.{◌≡◌, take};
ghost use Rattle.console.specs.Input.{asked_by};
ghost use Rattle.console.specs.Answers.{Answered};

use commands::{Command, Fault, command_of};
use lending::Desk;
use pages::{PAGE, Page};
use plans::written::save;
use replies::words::{put_fault, put_ok};
use requests::{meet, read};
use std::rt::Files;

// What a line of so many bytes asks for.
fn asked(line: &[u8], bytes: usize) -> Result<Command, Fault>
    ensures { result ≡ asked_by line.now bytes }
{
    if line.len() < bytes {
        return Err(Fault::LongLine);
    }
    command_of(&line[..bytes])
}

// The bytes of a line, or all that are kept where it is too long.
fn heard(line: &[u8], bytes: usize) -> &[u8]
    ensures { result.now ≡ take bytes line.now }
{
    &line[..bytes.min(line.len())]
}

// Answers a line of so many bytes. An input that ends has no further line where no byte was left.
pub fn answer(
    rt: &impl Files,
    page: &mut Page<PAGE>,
    desk: &mut Desk,
    line: &[u8],
    length: usize,
    ended: bool,
)
    ensures { Answered line.now length ended desk.old page.new desk.new }
{
    if ended & (length == 0) {
        return page.clear();
    }
    let words = heard(line, length);
    match asked(line, length) {
        Err(fault) => put_fault(page, fault),
        Ok(Command::Lend(row)) => {
            desk.lend(words, row);
            put_ok(page);
        }
        Ok(Command::Fresh) => {
            desk.clear();
            put_ok(page);
        }
        Ok(Command::Save(format)) => save(rt, page, desk, words, format),
        Ok(Command::Read(reading)) => read(rt, page, desk, words, reading),
        Ok(Command::Other(request)) => meet(page, desk, request),
    }
}
