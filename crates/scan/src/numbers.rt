// Decimal numbers of any count of digits. What is beyond 10,000,000,000 is held as 10,000,000,000: every number of 32 bits is below.
ghost use Rattle.std.specs.Prelude.{◌≡◌};
ghost use Rattle.scan.specs.Numbers.{value_from, natural_of, integer_of};
ghost use Rattle.scan.specs.Held.{held_natural, held_integer};

// The most that a number is held as.
const MOST: u64 = 10_000_000_000;

// The number that digits spell.
fn read_digits(s: &[u8]) -> Option<u64>
    ensures { result ≡ held_natural (value_from 0 s.now) }
{
    let mut v = 0;
    for b in s {
        if !b.is_ascii_digit() {
            return None;
        }
        v = (10 * v + u64::from(*b - b'0')).min(MOST);
    }
    Some(v)
}

// A number without sign, and without leading zeros except `0` itself.
#[tactic(auto, unfolding(crate::specs::Numbers::natural_of, crate::specs::Held::held_natural))]
pub fn read_natural(s: &[u8]) -> Option<u64>
    ensures { result ≡ held_natural (natural_of s.now) }
{
    match s {
        [] | [b'0', _, ..] => None,
        _ => read_digits(s),
    }
}

// A number with one leading minus or none; `-0` is malformed.
pub fn read_integer(s: &[u8]) -> Option<i64>
    ensures { result ≡ held_integer (integer_of s.now) }
{
    let [b'-', digits @ ..] = s else {
        return Some(read_natural(s)? as i64);
    };
    let v = read_natural(digits)?;
    (v != 0).then_some(-(v as i64))
}
