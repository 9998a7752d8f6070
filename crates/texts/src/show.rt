// What is printed of a reply, as the independent program prints it.
use dimacs::{read_co, read_gr};
use printing::{number, text};
use rules::{Refusal, Sizes};
use std::fmt::Display;
use std::io;

// `refused`, the paper's number, and the line and the column where there are any.
fn refused(rt: &impl Print, r: Refusal) -> io::Result<()> {
    let told = r.told();
    text(rt, b"refused ")?;
    number(rt, told.number)?;
    row(rt, b"", told.values(), 2)
}

// A row's name, and its first m numbers.
fn row<T: Display + Copy + Drop>(
    rt: &impl Print,
    name: &[u8],
    numbers: &[T],
    m: u32,
) -> io::Result<()> {
    text(rt, name)?;
    for n in numbers.iter().take(m as usize) {
        text(rt, b" ")?;
        number(rt, *n)?;
    }
    text(rt, b"\n")
}

// The reply to a graph file, and the places that it filled.
pub fn graph_of(rt: &impl Print, bytes: &[u8]) -> io::Result<()> {
    let mut tails = [0; 2048];
    let mut heads = [0; 2048];
    let mut weights = [0; 2048];
    let mut closures = [0; 2048];
    match read_gr(bytes, &mut tails, &mut heads, &mut weights, &mut closures) {
        Ok(Sizes { n, m }) => {
            row(rt, b"ok", &[n, m], 2)?;
            row(rt, b"tails", &tails, m)?;
            row(rt, b"heads", &heads, m)?;
            row(rt, b"weights", &weights, m)
        }
        Err(r) => refused(rt, r),
    }
}

// The reply to a coordinate file for n nodes, and the places that it filled.
pub fn coordinates_of(rt: &impl Print, bytes: &[u8], n: u32) -> io::Result<()> {
    let mut x = [0; 512];
    let mut y = [0; 512];
    match read_co(bytes, n, &mut x, &mut y) {
        Ok(()) => {
            text(rt, b"ok\n")?;
            row(rt, b"x", &x, n)?;
            row(rt, b"y", &y, n)
        }
        Err(r) => refused(rt, r),
    }
}
