// Reading a file.
#![tactic(auto)]

ghost use Rattle.std.specs.Prelude.{◌≡◌, length};
ghost use Rattle.files.specs.File.{Within, held_in, held_of};

use std::io::Read;
use std::rt::Files;
use std::{fs, str};

// Reads until the file ends or the text is full, and answers how many bytes were read. A read of 0 bytes is the file's end.
fn read_on(from: &mut impl Read, text: &mut [u8]) -> Option<usize>
    ensures { Within (length text.new) result }
{
    let mut at = 0;
    // each read tells how far it came, so no range counts the turns
    while at < text.len() {
        let n = from.read(&mut text[at..]).ok()?;
        if n == 0 {
            break;
        }
        at += n;
    }
    Some(at)
}

// Reads a file's first bytes, as many as the text has places for, and answers how many were read; nothing where the file cannot
// be read. A path that is not UTF-8 names no file.
pub fn read_file(rt: &impl Files, path: &[u8], text: &mut [u8]) -> Option<usize>
    ensures { Within (length text.new) result }
{
    let name = str::from_utf8(path).ok()?;
    let mut file = fs::open(rt, name).ok()?;
    read_on(&mut file, text)
}

// What was read of a file into a text: its first bytes, as many as were read.
pub fn contents(text: &[u8], read: Option<usize>) -> Option<&[u8]>
    requires { Within (length text.now) read }
    ensures { held_of result ≡ held_in text.now read }
{
    read.map(|bytes| &text[..bytes])
}
