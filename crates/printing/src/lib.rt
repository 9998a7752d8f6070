// Writing to standard output.
#![tactic(auto)]

use pages::{PAGE, Page};
use std::fmt::Display;
use std::io;

// Writes what stands on the page.
pub fn out(rt: &impl Print, page: &Page<PAGE>) -> io::Result<()> {
    rt.write_all(page.text())
}

// Writes a text as it stands.
pub fn text(rt: &impl Print, bytes: &[u8]) -> io::Result<()> {
    rt.write_all(bytes)
}

// Writes a number in decimal, with a minus where it is below 0.
pub fn number(rt: &impl Print, n: impl Display + Drop) -> io::Result<()> {
    rt.print(n)
}
