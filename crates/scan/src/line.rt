// The lines of a format: comments, a problem line, data lines.
ghost use Rattle.std.specs.Prelude.{◌≡◌};
ghost use Rattle.scan.specs.Line.{line_of};
ghost use Rattle.scan.specs.Held.{held_line};

use crate::fields::{Fault, Kind, read_fields};
use crate::holding::Numbers;
use crate::pieces::first_field;

// What a line is.
#[derive(Clone, Copy)]
pub enum Line {
    Comment,
    Problem(Numbers),
    Data(Numbers),
}

// A line of a format whose problem line has the form `problem` and whose data lines have the form `data`.
pub fn read_line(s: &[u8], problem: &[u8], data: &[u8]) -> Result<Line, Fault>
    ensures { result ≡ held_line (line_of problem.now «data».now s.now) }
{
    if s.is_empty() {
        return Err(Fault {
            kind: Kind::EmptyLine,
            column: 1,
        });
    }
    let letter = first_field(s);
    if letter == b"c".as_slice() {
        return Ok(Line::Comment);
    }
    if letter == first_field(data) {
        return Ok(Line::Data(read_fields(data, s)?));
    }
    if letter == first_field(problem) {
        return Ok(Line::Problem(read_fields(problem, s)?));
    }
    Err(Fault {
        kind: Kind::NoLetter,
        column: 1,
    })
}
