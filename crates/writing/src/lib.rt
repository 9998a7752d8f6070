// Writes the plans back: the texts of a network and of its coordinates, as the readers of dimacs take them.
#![tactic(auto)]

mod lines;
mod texts;

ghost use Rattle.std.specs.Prelude.{◌≡◌, leb, length};
ghost use Rattle.walks.specs.Rows.{open_rows};
ghost use Rattle.judging.specs.Order.{lengths};
ghost use Rattle.writing.specs.Writes.{places_judged, Writes, GrWrites, CoWrites};

use judging::network::judge_arc_rows;
use judging::places::judge_places;
use judging::sizes::{judge_lengths, unless};
use pages::Page;
use rules::Refusal;
use texts::{put_network, put_places};
use walks::Network;

// Bytes go to the front of a row, if they fit.
fn hand_over(bytes: &[u8], row: &mut [u8]) -> Result<usize, Refusal>
    ensures { Writes (lengths (leb (length bytes.now) (length row.old)))
        bytes.now row.old result row.new }
{
    judge_lengths(bytes.len() <= row.len())?;
    row[..bytes.len()].copy_from_slice(bytes);
    Ok(bytes.len())
}

// Writes a network as a graph file into a row, and answers the text's length.
pub fn write_gr(
    n: u32,
    m: u32,
    tails: &[u32],
    heads: &[u32],
    weights: &[u32],
    text: &mut [u8],
) -> Result<usize, Refusal>
    ensures { GrWrites n m (open_rows tails.now heads.now weights.now)
        text.old result text.new }
{
    let net = Network {
        n,
        m,
        tails,
        heads,
        weights,
        closures: &[],
    };
    judge_arc_rows(net, true)?;
    let mut page = Page::new();
    put_network(&mut page, net);
    hand_over(page.text(), text)
}

// Coordinates without a network: 5 for n, 2, 9.
#[tactic(auto, unfolding(crate::specs::Writes::places_judged))]
fn judge_coordinates(n: u32, x: &[i32], y: &[i32]) -> Result<(), Refusal>
    ensures { result ≡ places_judged n x.now y.now }
{
    unless(
        (1 <= n) & (n <= rules::NODES),
        Refusal::BeyondLimits { line: 0 },
    )?;
    let places = n as usize;
    judge_lengths((places <= x.len()) & (places <= y.len()))?;
    judge_places(n, x, y)
}

// Writes coordinates as a coordinate file into a row, and answers the text's length.
pub fn write_co(n: u32, x: &[i32], y: &[i32], text: &mut [u8]) -> Result<usize, Refusal>
    ensures { CoWrites n x.now y.now text.old result text.new }
{
    judge_coordinates(n, x, y)?;
    let mut page = Page::new();
    put_places(&mut page, n, x, y);
    hand_over(page.text(), text)
}
