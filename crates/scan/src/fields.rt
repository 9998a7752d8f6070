// The fields of a line, read from left to right where its form has fields; a form is written as in the paper: `p sp N M`, `v ID X Y`.
ghost use Rattle.std.specs.Prelude.{◌≡◌, ◌+◌, ◌^◌, ◌<◌, length};
ghost use Rattle.scan.specs.Pieces.{fields_of};
ghost use Rattle.scan.specs.Fields.{taken, matched};
ghost use Rattle.scan.specs.Held.{held_field, held_fields};

use crate::holding::{Numbers, Value, hold, hold_signed, put_before};
use crate::numbers::{read_integer, read_natural};
use crate::pieces::first_at;

// What is wrong with a line.
#[derive(Clone, Copy)]
pub enum Kind {
    EmptyLine,
    NoLetter,
    Misspelt,
    Missing,
    Extra,
}

// A fault of a line, and the column, from 1, where it is seen.
#[derive(Clone, Copy)]
pub struct Fault {
    pub kind: Kind,
    pub column: usize,
}

// The field s where the form has `form`, if it has its spelling.
fn take_field(form: &[u8], s: &[u8]) -> Option<Value>
    ensures { result ≡ held_field (taken form.now s.now) }
{
    match form {
        [b'X'..=b'Z', ..] => Some(Value::Signed(hold_signed(read_integer(s)?))),
        [b'A'..=b'W', ..] => Some(Value::Unsigned(hold(read_natural(s)?))),
        _ => (s == form).then_some(Value::Word),
    }
}

// The fields of s, of which the first stands at the column, where the form has those of `form`.
fn match_fields(form: &[u8], s: &[u8], column: usize) -> Result<Numbers, Fault>
    requires { column + length s.now + 1 < 2 ^ 64 }
    ensures { result ≡ held_fields (matched (fields_of form.now) column (fields_of s.now)) }
{
    let d = first_at(form, b' ');
    let e = first_at(s, b' ');
    let value = take_field(&form[..d], &s[..e]).ok_or(Fault {
        kind: Kind::Misspelt,
        column,
    })?;
    let later = match (d < form.len(), e < s.len()) {
        (false, false) => Numbers::default(),
        (false, true) => {
            return Err(Fault {
                kind: Kind::Extra,
                column: column + e + 1,
            });
        }
        (true, false) => {
            return Err(Fault {
                kind: Kind::Missing,
                column: column + e,
            });
        }
        (true, true) => match_fields(&form[d + 1..], &s[e + 1..], column + e + 1)?,
    };
    Ok(put_before(value, later))
}

// The fields of s, from left to right, where the form has those of `form`; the first fault decides.
pub fn read_fields(form: &[u8], s: &[u8]) -> Result<Numbers, Fault>
    ensures { result ≡ held_fields (matched (fields_of form.now) 1 (fields_of s.now)) }
{
    match_fields(form, s, 1)
}
