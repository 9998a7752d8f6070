// Pieces of a text.
ghost use Rattle.std.specs.Prelude.{◌≡◌, ◌≤◌, length, get_or, []};
ghost use Rattle.std.specs.Iterator.{YieldsFirstRef, item_count};
ghost use Rattle.scan.specs.Pieces.{first_at, after_first, first_field, pieces};
ghost use Rattle.scan.specs.Left.{pieces_left};

// Where the first byte sep of s stands, or the length of s.
pub fn first_at(s: &[u8], sep: u8) -> usize
    ensures { (result ≡ first_at sep s.now) × (result ≤ length s.now) }
{
    s.iter().position(|b| *b == sep).unwrap_or(s.len())
}

// What stands before the first space.
pub fn first_field(s: &[u8]) -> &[u8]
    ensures { result.now ≡ first_field s.now }
{
    &s[..first_at(s, b' ')]
}

// What stands after the first byte sep, or nothing.
pub fn after_first(s: &[u8], sep: u8) -> &[u8]
    ensures { result.now ≡ after_first sep s.now }
{
    let e = first_at(s, sep);
    if e < s.len() { &s[e + 1..] } else { &[] }
}

// What is left of a text whose pieces are gone through.
#[derive(Drop)]
pub struct Pieces<'a> {
    left: &'a [u8],
    sep: u8,
}

impl<'a> Iterator for Pieces<'a> {
    type Item = &'a [u8];

    ghost next_gives = { YieldsFirstRef pieces_left };

    ghost remaining = { item_count pieces_left };

    #[tactic(auto, using(crate::proofs::PieceLaws::pieces_first, crate::proofs::PieceLaws::pieces_none))]
    fn next(&mut self) -> Option<&'a [u8]> {
        if self.left.is_empty() {
            return None;
        }
        let piece = &self.left[..first_at(self.left, self.sep)];
        self.left = after_first(self.left, self.sep);
        Some(piece)
    }
}

// The pieces of a text that a byte divides, from the left; the last may lack its end.
pub fn pieces_of(s: &[u8], sep: u8) -> Pieces<'_>
    ensures { pieces_left result ≡ pieces sep [] s.now }
{
    Pieces { left: s, sep }
}

// The piece in a place, from 0, of those that a byte divides; nothing where there are fewer.
pub fn piece_at(s: &[u8], sep: u8, place: usize) -> &[u8]
    ensures result_value { result.now ≡ get_or (pieces sep [] s.now) place [] }
    ensures result_in_bounds { length result.now ≤ length s.now }
{
    pieces_of(s, sep).nth(place).unwrap_or(&[])
}
