// The route box at a terminal or on a pipe: one command a line, one line as its reply.
#![tactic(auto)]

mod answer;

use crate::answer::answer;
use hearing::Input;
use lending::Desk;
use pages::{PAGE, Page};
use printing::out;
use std::io;
use std::io::Read;
use std::rt::Files;

// Answers the lines of the input to its end. A proved loop has to end, and nothing says that an input does, so its turns
// are counted to a number that no run uses up.
fn converse(
    rt: &(impl Files + Print),
    from: &mut impl Read,
    line: &mut [u8],
    page: &mut Page<PAGE>,
    desk: &mut Desk,
) -> io::Result<()> {
    let mut input = Input::new();
    for _ in 0..u64::MAX {
        let heard = input.read_line(from, line);
        answer(rt, page, desk, line, heard.length, heard.ended);
        out(rt, page)?;
        if heard.ended {
            break;
        }
    }
    Ok(())
}

fn main(rt: HostRuntime) -> io::Result<()> {
    let mut line = [0; 262144];
    converse(
        &rt,
        &mut rt.stdin(),
        &mut line,
        &mut Page::new(),
        &mut Desk::new(),
    )
}
