// The text formats of the 9th DIMACS Implementation Challenge: a text becomes rows, or gets its numbered refusal.
#![tactic(auto)]

mod format;
mod judge;
mod rows;
mod sheet;

ghost use Rattle.dimacs.specs.Promise.{GrPromise, CoPromise, P2pPromise};

use format::Format;
use judge::passes;
use rows::put;
use rules::{Refusal, Sizes};
use sheet::read_sheet;

// Reads a graph file into four rows of at least 2,048 places. A text carries no closures: every arc is open.
pub fn read_gr(
    text: &[u8],
    tails: &mut [u32],
    heads: &mut [u32],
    weights: &mut [u32],
    closures: &mut [u8],
) -> Result<Sizes, Refusal>
    ensures { GrPromise text.now tails.old heads.old weights.old closures.old
        result tails.new heads.new weights.new closures.new }
{
    passes(text.len() <= rules::TEXT, Refusal::TextTooLong)?;
    passes(
        (2048 <= tails.len())
            & (2048 <= heads.len())
            & (2048 <= weights.len())
            & (2048 <= closures.len()),
        Refusal::RowTooShort,
    )?;
    let sheet = read_sheet(text, Format::Graph)?;
    let n = sheet.problem.first;
    let m = sheet.problem.second;
    let lines = &sheet.lines[..m as usize];
    put(lines, |ns| ns.first, tails);
    put(lines, |ns| ns.second, heads);
    put(lines, |ns| ns.third, weights);
    closures[..m as usize].fill(0);
    Ok(Sizes { n, m })
}

// Reads a coordinate file for a graph of n nodes into two rows of at least 512 places.
pub fn read_co(text: &[u8], n: u32, x: &mut [i32], y: &mut [i32]) -> Result<(), Refusal>
    ensures { CoPromise text.now n x.old y.old result x.new y.new }
{
    passes(text.len() <= rules::TEXT, Refusal::TextTooLong)?;
    passes((512 <= x.len()) & (512 <= y.len()), Refusal::RowTooShort)?;
    passes(
        (1 <= n) & (n <= rules::NODES),
        Refusal::BeyondLimits { line: 0 },
    )?;
    let sheet = read_sheet(text, Format::Coordinates(n))?;
    let lines = &sheet.lines[..sheet.problem.first as usize];
    put(lines, |ns| ns.x, x);
    put(lines, |ns| ns.y, y);
    Ok(())
}

// Reads a day's list for a graph of n nodes: the first K places of the rows become the queries' sources and targets. The row
// `answers` is only measured: it is to have a place for each of 256 queries. The paper lends three rows, so they are no row of queries.
pub fn read_p2p(
    text: &[u8],
    n: u32,
    answers: &[u32],
    sources: &mut [u32; 256],
    targets: &mut [u32; 256],
) -> Result<u32, Refusal>
    ensures { P2pPromise text.now n answers.now sources.old targets.old result sources.new targets.new }
{
    passes(text.len() <= rules::TEXT, Refusal::TextTooLong)?;
    passes(256 <= answers.len(), Refusal::RowTooShort)?;
    passes(
        (1 <= n) & (n <= rules::NODES),
        Refusal::BeyondLimits { line: 0 },
    )?;
    let sheet = read_sheet(text, Format::Queries(n))?;
    let k = sheet.problem.first;
    let lines = &sheet.lines[..k as usize];
    put(lines, |ns| ns.first, sources);
    put(lines, |ns| ns.second, targets);
    Ok(k)
}
