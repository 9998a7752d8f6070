// Numbers on a page.
ghost use Rattle.std.specs.Prelude.{◌≡◌, ◌++◌, ◌+◌, ◌*◌, ◌≤◌, List, ℕ, length, take};
ghost use Rattle.std.proofs.Common.{rules};
ghost use Rattle.pages.specs.Page.{Puts};
ghost use Rattle.pages.specs.Spaced.{spaced};
ghost use Rattle.scan.specs.Decimal.{decimal, whole};

use crate::Page;

// A number that can stand on a page.
pub trait Number: Copy {
    // how it is spelt, and the most bytes that takes
    ghost spelt: { Self → List ℕ };

    ghost most: { ℕ };

    // The number on a page of its own.
    fn spell(self) -> Page<20>
        ensures spelt { result ≡ spelt self }
        ensures upper_bound { length (spelt self) ≤ most };

    // Puts the number at the front of bytes, and answers how many it takes; by its own page, where the type has no shorter way.
    fn spell_into(self, bytes: &mut [u8]) -> usize
        requires { most ≤ length bytes.old }
        ensures spelt { take result bytes.new ≡ spelt self }
        ensures upper_bound { result ≡ length (spelt self) × (length (spelt self) ≤ most) }
    {
        let page = self.spell();
        let text = page.text();
        bytes[..text.len()].copy_from_slice(text);
        text.len()
    }
}

// A number of at most 20 bytes that needs no page of its own.
pub trait Short: Copy {
    // how it is spelt, and the most bytes that takes
    ghost spelt: { Self → List ℕ };

    ghost most: { ℕ };

    // Puts the number at the front of bytes, and answers how many it takes.
    fn put_into(self, bytes: &mut [u8]) -> usize
        requires { most ≤ length bytes.old }
        ensures spelt { take result bytes.new ≡ spelt self }
        ensures upper_bound { result ≡ length (spelt self) × (length (spelt self) ≤ most) };

    // The number on a page of its own.
    final fn on_page(self) -> Page<20>
        ensures spelt { result ≡ spelt self }
        ensures upper_bound { length (spelt self) ≤ most }
    {
        let mut bytes = [0; 20];
        let end = self.put_into(&mut bytes[..]);
        Page { bytes, end }
    }

    ghost short: { most ≤ 20 };
}

// Such a number stands on a page too, and is put there the shorter way.
impl<T: Short> Number for T {
    ghost spelt = { T.spelt };

    ghost most = { T.most };

    fn spell(self) -> Page<20> {
        self.on_page()
    }

    fn spell_into(self, bytes: &mut [u8]) -> usize {
        self.put_into(bytes)
    }
}

// Puts a number's digits at the front of bytes, and answers how many they are.
fn put_digits(n: u64, bytes: &mut [u8]) -> usize
    requires { length (decimal n) ≤ length bytes.old }
    ensures spelt { take result bytes.new ≡ decimal n }
    ensures upper_bound { result ≡ length (decimal n) }
{
    let mut digits = [0; 20];
    let end = io::decimal(n, &mut digits);
    bytes[..end].copy_from_slice(&digits[..end]);
    end
}

impl Short for u64 {
    ghost spelt = { decimal };

    ghost most = { 20 };

    ghost short = { Prim.search rules };

    fn put_into(self, bytes: &mut [u8]) -> usize {
        put_digits(self, bytes)
    }
}

impl Short for u32 {
    ghost spelt = { decimal };

    ghost most = { 10 };

    ghost short = { Prim.search rules };

    fn put_into(self, bytes: &mut [u8]) -> usize {
        put_digits(self as u64, bytes)
    }
}

impl Short for u8 {
    ghost spelt = { decimal };

    ghost most = { 3 };

    ghost short = { Prim.search rules };

    fn put_into(self, bytes: &mut [u8]) -> usize {
        put_digits(self as u64, bytes)
    }
}

impl Short for i32 {
    ghost spelt = { whole };

    ghost most = { 11 };

    ghost short = { Prim.search rules };

    fn put_into(self, bytes: &mut [u8]) -> usize {
        let size = self.unsigned_abs() as u64;
        if self < 0 {
            bytes[0] = b'-';
            return 1 + put_digits(size, &mut bytes[1..]);
        }
        put_digits(size, bytes)
    }
}

impl<const N: usize> Page<N> {
    // Puts a number.
    pub fn put_number<T: Number>(&mut self, n: T)
        requires { length self.old + T.most ≤ N }
        ensures puts { Puts (T.spelt n) self.old self.new }
        ensures upper_bound { length self.new ≤ length self.old + T.most }
    {
        let whole = &mut self.bytes[..];
        let end = self.end + n.spell_into(&mut whole[self.end..]);
        self.end = end;
    }

    // Puts bytes, and a number after them.
    pub fn put_after<T: Number>(&mut self, bytes: &[u8], n: T)
        requires { length self.old + length bytes.now + T.most ≤ N }
        ensures puts { Puts (bytes.now ++ T.spelt n) self.old self.new }
        ensures upper_bound { length self.new ≤ length self.old + length bytes.now + T.most }
    {
        self.put(bytes);
        self.put_number(n);
    }

    // Puts the numbers of a row, each after a space.
    pub fn put_row<T: Number>(&mut self, row: &[T])
        requires { length self.old + (1 + T.most) * length row.now ≤ N }
        ensures puts { Puts (spaced T.spelt row.now) self.old self.new }
        ensures upper_bound { length self.new ≤ length self.old + (1 + T.most) * length row.now }
    {
        for n in row {
            self.put_after(b" ", *n);
        }
    }
}
