// What the console does with just the places that are lent: a request is met, a file is read, and the reply is put on a page.
#![tactic(auto)]

ghost use Rattle.std.specs.Prelude.{◌≤◌, length};
ghost use Rattle.files.specs.File.{Within, held_in};
ghost use Rattle.desk.specs.Requests.{Meets, Reads, HasRead};

use commands::Request;
use commands::verbs::Reading;
use commands::words::after_word;
use copies::call_on;
use days::day;
use files::{contents, read_file};
use lending::Desk;
use pages::{PAGE, Page};
use plans::reading::{graph, places};
use plans::written::write_row;
use replies::showing::show_row;
use replies::words::{put_help, put_ok};
use std::rt::Files;

// Does what a request asks for.
pub fn meet(page: &mut Page<PAGE>, desk: &mut Desk, request: Request)
    ensures { Meets desk.old request page.new desk.new }
{
    match request {
        Request::SetN(n) => {
            desk.sizes.n = n;
            put_ok(page);
        }
        Request::SetM(m) => {
            desk.sizes.m = m;
            put_ok(page);
        }
        Request::Show(row, shown) => show_row(page, desk, row, shown),
        Request::Write(format) => write_row(page, desk, format),
        Request::Call(call) => call_on(page, desk, call),
        Request::Help => put_help(page),
    }
}

// What was read of a file goes into the rows.
fn read_in(
    page: &mut Page<PAGE>,
    desk: &mut Desk,
    reading: Reading,
    text: &[u8],
    file: Option<usize>,
)
    requires { Within (length text.now) file }
    ensures reads { Reads (held_in text.now file) desk.old reading page.new desk.new }
    ensures few { length page.new ≤ 1000 }
{
    let text = contents(text, file);
    match reading {
        Reading::Gr => graph(page, desk, text),
        Reading::Co => places(page, desk, text),
        Reading::P2p => day(page, desk, text),
    }
}

// Opens and reads the file that a line names.
pub fn read(rt: &impl Files, page: &mut Page<PAGE>, desk: &mut Desk, line: &[u8], reading: Reading)
    ensures reads { HasRead desk.old reading desk.new page.new }
    ensures few { length page.new ≤ 1000 }
{
    let mut text = [0; 65537];
    let file = read_file(rt, after_word(line), &mut text);
    read_in(page, desk, reading, &text, file);
}
