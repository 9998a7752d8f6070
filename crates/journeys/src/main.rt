// Reads `net.gr`, `net.co` and `day.p2p`, builds the boxes and prints one line per query and the totals, or why a file was refused.
#![tactic(auto)]

mod day;

ghost use Rattle.std.specs.Prelude.{length};
ghost use Rattle.files.specs.File.{Within, held_in};
ghost use Rattle.journeys.specs.Prints.{Prints};

use day::list_day;
use files::{contents, read_file};
use loading::{Plan, Unusable, put_trouble, read_places};
use pages::{PAGE, Page};
use printing::out;
use std::io;

// What is printed, of what was read of the three files.
fn list(
    page: &mut Page<PAGE>,
    gr: &[u8],
    graph: Option<usize>,
    co: &[u8],
    places: Option<usize>,
    text: &[u8],
    day: Option<usize>,
)
    requires { Within (length gr.now) graph × Within (length co.now) places × Within (length text.now) day }
    ensures { Prints (held_in gr.now graph) (held_in co.now places) (held_in text.now day) page.new }
{
    let mut plan = Plan::blank();
    match plan.load(contents(gr, graph), contents(co, places)) {
        Ok(()) => list_day(page, &plan, text, day),
        // a match of its own, since a proof has no name for what a pattern within a pattern binds
        Err(unusable) => match unusable {
            Unusable::Graph(trouble) => put_trouble(page, trouble, b" net.gr\n"),
            Unusable::Places(trouble) => put_trouble(page, trouble, b" net.co\n"),
        },
    }
}

fn main(rt: HostRuntime) -> io::Result<()> {
    let mut gr = [0; 65537];
    let graph = read_file(&rt, b"net.gr", &mut gr);
    let mut co = [0; 65537];
    let places = read_places(&rt, contents(&gr, graph), &mut co);
    let mut text = [0; 65537];
    let day = read_file(&rt, b"day.p2p", &mut text);
    let mut page = Page::new();
    list(&mut page, &gr, graph, &co, places, &text, day);
    out(&rt, &page)
}
