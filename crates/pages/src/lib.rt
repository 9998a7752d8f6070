// A page: a text that is put together piece by piece, in a memory of a fixed size.
#![tactic(auto)]

mod numbers;
#[cfg(test)]
mod tests;

ghost use Rattle.std.specs.Prelude.{◌≡◌, ◌++◌, ◌+◌, ◌≤◌, [], List, ℕ, length, take};
ghost use Rattle.pages.specs.Page.{Puts};

pub use numbers::{Number, Short};
use std::marker::Model;

// The bytes of a program's page: more than any listing or reply takes.
pub const PAGE: usize = 368640;

// A text of at most N bytes.
#[derive(Drop)]
pub struct Page<const N: usize> {
    bytes: [u8; N],
    end: usize,
}

// Clauses see the text.
impl<const N: usize> Model for Page<N> {
    ghost Value = { List ℕ };

    ghost view = { λ page. take page.end page.bytes };

    ghost invariant = { λ page. page.end ≤ N };
}

impl<const N: usize> Page<N> {
    // A page with no text.
    pub fn new() -> Self
        ensures { result ≡ [] }
    {
        Page {
            bytes: [0; N],
            end: 0,
        }
    }

    // What stands on the page.
    pub fn text(&self) -> &[u8]
        ensures text { result.now ≡ self.now }
        ensures upper_bound { length self.now ≤ N }
    {
        let whole = &self.bytes[..];
        &whole[..self.end]
    }

    // Takes the text away.
    pub fn clear(&mut self)
        ensures { self.new ≡ [] }
    {
        self.end = 0;
    }

    // Puts bytes after the text.
    pub fn put(&mut self, bytes: &[u8])
        requires { length self.old + length bytes.now ≤ N }
        ensures { Puts bytes.now self.old self.new }
    {
        let end = self.end + bytes.len();
        let whole = &mut self.bytes[..];
        whole[self.end..end].copy_from_slice(bytes);
        self.end = end;
    }

    // Begins a text with these bytes, in the place of what stood on the page.
    pub fn start(&mut self, bytes: &[u8])
        requires { length bytes.now ≤ N }
        ensures { self.new ≡ bytes.now }
    {
        self.clear();
        self.put(bytes);
    }
}
