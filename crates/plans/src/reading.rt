// `gr` and `co`, with the rows copied for the reader.
ghost use Rattle.std.specs.Prelude.{◌≤◌, length};
ghost use Rattle.files.specs.File.{held_of};
ghost use Rattle.commands.specs.declared.verbs.Reading.TheVariants as reading;
ghost use Rattle.desk.specs.Requests.{Reads};

use calls::texts::{read_graph, read_places};
use commands::rows::Row;
use lending::Desk;
use lending::rows::{fetch, give};
use pages::{PAGE, Page};

pub fn graph(page: &mut Page<PAGE>, desk: &mut Desk, text: Option<&[u8]>)
    ensures reads { Reads (held_of text.entry) desk.old reading.Gr page.new desk.new }
    ensures few { length page.new ≤ 1000 }
{
    let mut tails = [0; 4096];
    let mut heads = [0; 4096];
    let mut weights = [0; 4096];
    let mut closures = [0; 4096];
    let a = fetch(&desk.counts, desk.lent, Row::Tails, &mut tails);
    let b = fetch(&desk.counts, desk.lent, Row::Heads, &mut heads);
    let c = fetch(&desk.counts, desk.lent, Row::Weights, &mut weights);
    let d = fetch(&desk.bytes, desk.lent, Row::Closed, &mut closures);
    desk.sizes = read_graph(
        page,
        text,
        desk.sizes,
        &mut tails[..a],
        &mut heads[..b],
        &mut weights[..c],
        &mut closures[..d],
    );
    give(&mut desk.counts, Row::Tails, &tails[..a]);
    give(&mut desk.counts, Row::Heads, &heads[..b]);
    give(&mut desk.counts, Row::Weights, &weights[..c]);
    give(&mut desk.bytes, Row::Closed, &closures[..d]);
}

pub fn places(page: &mut Page<PAGE>, desk: &mut Desk, text: Option<&[u8]>)
    ensures reads { Reads (held_of text.entry) desk.old reading.Co page.new desk.new }
    ensures few { length page.new ≤ 1000 }
{
    let mut x = [0; 1024];
    let mut y = [0; 1024];
    let a = fetch(&desk.numbers, desk.lent, Row::X, &mut x);
    let b = fetch(&desk.numbers, desk.lent, Row::Y, &mut y);
    read_places(page, text, desk.sizes.n, &mut x[..a], &mut y[..b]);
    give(&mut desk.numbers, Row::X, &x[..a]);
    give(&mut desk.numbers, Row::Y, &y[..b]);
}
