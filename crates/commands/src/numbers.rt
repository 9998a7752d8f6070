// The numbers of a command: 32 bits, with and without a sign, and bytes. A line each: one for any type would need a trait for what
// each spells.
ghost use Rattle.std.specs.Prelude.{◌≡◌};
ghost use Rattle.scan.specs.Numbers.{natural_of, integer_of};
ghost use Rattle.commands.specs.Numbers.{count_of, byte_of, signed_of};

use crate::Fault;
use scan::numbers::{read_integer, read_natural};

// A word as a number of 0..4294967295.
pub fn read_count(s: &[u8]) -> Result<u32, Fault>
    ensures { result ≡ count_of (natural_of s.now) }
{
    Ok(u32::try_from(read_natural(s).ok_or(Fault::Misspelt)?)?)
}

// A word as a number of 0..255.
pub fn read_byte(s: &[u8]) -> Result<u8, Fault>
    ensures { result ≡ byte_of (natural_of s.now) }
{
    Ok(u8::try_from(read_natural(s).ok_or(Fault::Misspelt)?)?)
}

// A word as a number of -2147483648..2147483647.
pub fn read_signed(s: &[u8]) -> Result<i32, Fault>
    ensures { result ≡ signed_of (integer_of s.now) }
{
    Ok(i32::try_from(read_integer(s).ok_or(Fault::Misspelt)?)?)
}
