// The lines of the input.
#![tactic(auto)]

mod input;

ghost use Rattle.std.specs.Prelude.{◌≡◌, ◌+◌, ◌<◌, [], ◌∷◌, min, length, set};
ghost use Rattle.hearing.specs.Hearing.{ahead_of, HeardLine, Follows};

pub use input::Input;
use std::io::Read;

// How many bytes a line has (one more than there is room for where it is too long), and whether the input ended with it: a last line
// may have both.
#[derive(Drop)]
pub struct Heard {
    pub length: usize,
    pub ended: bool,
}

// One byte more of a line that has `at` bytes: it is stored where there is room.
fn hear(line: &mut [u8], at: usize, byte: u8) -> usize
    ensures { (result ≡ min at (length line.old) + 1) × (line.new ≡ set line.old at byte) }
{
    if at < line.len() {
        line[at] = byte;
        at + 1
    } else {
        line.len() + 1
    }
}

impl Input {
    // Nothing was read yet.
    #[tactic(auto, unfolding(crate::specs::Hearing::ahead_of))]
    pub fn new() -> Input
        ensures { ahead_of result ≡ [] }
    {
        Input {
            chunk: [0; 4096],
            at: 0,
            end: 0,
        }
    }

    // Takes the byte that is ahead.
    fn take(&mut self) -> u8
        requires { self.old.at < self.old.end }
        ensures taken { ahead_of self.old ≡ result ∷ ahead_of self.new }
        ensures kept { (self.new.chunk ≡ self.old.chunk) × (self.new.end ≡ self.old.end) }
    {
        let byte = self.chunk[self.at];
        self.at += 1;
        byte
    }

    // The next byte, or nothing at the end. Only where the chunk is used up is more read: a line is then answered as soon as it
    // is there. A read that fails is the end of the input.
    fn next(&mut self, from: &mut impl Read) -> Option<u8>
        ensures { Follows self.old result self.new }
    {
        if self.at < self.end {
            return Some(self.take());
        }
        self.end = from.read(&mut self.chunk).unwrap_or(0);
        self.at = 0;
        if self.end == 0 {
            None
        } else {
            Some(self.take())
        }
    }

    // Reads up to the next byte 10 or the end of the input; what is beyond the line's room is passed over. A proved loop has to
    // end, and nothing says that an input does, so its turns are counted to a number that no line reaches.
    pub fn read_line(&mut self, from: &mut impl Read, line: &mut [u8]) -> Heard
        ensures { HeardLine (ahead_of self.old) line.old line.new result.length result.ended (ahead_of self.new) }
    {
        let mut length = 0;
        for turn in 0..u64::MAX {
            let Some(byte) = self.next(from) else {
                break;
            };
            let ends = byte == b'\n';
            if ends {
                return Heard {
                    length,
                    ended: false,
                };
            }
            length = hear(line, length, byte);
        }
        Heard {
            length,
            ended: true,
        }
    }
}
