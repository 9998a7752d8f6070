// Reads `net.gr` and `net.co`, builds the boxes and prints one line per arc, or why it was refused.
#![tactic(auto)]

ghost use Rattle.std.specs.Prelude.{length};
ghost use Rattle.files.specs.File.{Within, held_in};
ghost use Rattle.boxes.specs.Prints.{Prints};

use files::{contents, read_file};
use listing::put_listing;
use loading::{Plan, Unusable, put_trouble, read_places};
use pages::{PAGE, Page};
use printing::out;
use std::io;

// What is printed, of what was read of the two files.
fn list(page: &mut Page<PAGE>, gr: &[u8], graph: Option<usize>, co: &[u8], places: Option<usize>)
    requires { Within (length gr.now) graph × Within (length co.now) places }
    ensures { Prints (held_in gr.now graph) (held_in co.now places) page.new }
{
    let mut plan = Plan::blank();
    match plan.load(contents(gr, graph), contents(co, places)) {
        Ok(()) => put_listing(page, plan.network(), &plan.boxes),
        // a match of its own, since a proof has no name for what a pattern within a pattern binds
        Err(unusable) => match unusable {
            Unusable::Graph(trouble) => put_trouble(page, trouble, b"\n"),
            Unusable::Places(trouble) => put_trouble(page, trouble, b"\n"),
        },
    }
}

fn main(rt: HostRuntime) -> io::Result<()> {
    let mut gr = [0; 65537];
    let graph = read_file(&rt, b"net.gr", &mut gr);
    let mut co = [0; 65537];
    let places = read_places(&rt, contents(&gr, graph), &mut co);
    let mut page = Page::new();
    list(&mut page, &gr, graph, &co, places);
    out(&rt, &page)
}
