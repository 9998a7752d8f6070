// The replies that are fixed words.
ghost use Rattle.std.specs.Prelude.{◌≡◌, ◌≤◌, length};
ghost use Rattle.replies.specs.Replies.{ok_line, help_line, unsaved_line, judged_line, fault_line};

use commands::Fault;
use pages::{PAGE, Page};
use rules::Refusal;
use wording::put_refusal;

#[tactic(auto, unfolding(crate::specs::Replies::ok_line, scan::specs::Ascii::bytes))]
pub fn put_ok(page: &mut Page<PAGE>)
    ensures text { page.new ≡ ok_line }
    ensures few { length page.new ≤ 1000 }
{
    page.start(b"ok\n");
}

#[tactic(auto, unfolding(crate::specs::Replies::help_line, scan::specs::Ascii::bytes))]
pub fn put_help(page: &mut Page<PAGE>)
    ensures text { page.new ≡ help_line }
    ensures few { length page.new ≤ 1000 }
{
    page.start(
        b"commands: n N, m M, lend ROW VALUES, show ROW, show ROW K, gr FILE, co FILE, p2p FILE, build, check, ",
    );
    page.put(
        b"update ARC WEIGHT BYTE, search S T, boxed S T, why S T ARC, write gr, write co, save gr FILE, save co FILE, fresh, help; rows: tails, heads, weights, x, y, boxes, route, text, closed, answers\n",
    );
}

// A file cannot be written.
#[tactic(auto, unfolding(crate::specs::Replies::unsaved_line, scan::specs::Ascii::bytes))]
pub fn put_unsaved(page: &mut Page<PAGE>)
    ensures text { page.new ≡ unsaved_line }
    ensures few { length page.new ≤ 1000 }
{
    page.start(b"refused 0 0 (the file cannot be written)\n");
}

// `ok`, or why a call was refused.
#[tactic(auto, unfolding(crate::specs::Replies::judged_line))]
pub fn put_judged(page: &mut Page<PAGE>, judged: Result<(), Refusal>)
    ensures text { page.new ≡ judged_line judged }
    ensures few { length page.new ≤ 1000 }
{
    match judged {
        Ok(()) => put_ok(page),
        Err(refusal) => put_refusal(page, refusal),
    }
}

// Why a line is no command, in words.
#[tactic(auto, unfolding(crate::specs::Replies::fault_line, scan::specs::Ascii::bytes))]
fn words_of(fault: Fault) -> &'static [u8]
    ensures words { result.now ≡ fault_line fault }
    ensures few { length result.now ≤ 100 }
{
    match fault {
        Fault::LongLine => b"? the line is too long\n",
        Fault::EmptyLine => b"? the line is empty\n",
        Fault::ControlByte => b"? a word holds a carriage return or a tab\n",
        Fault::EmptyWord => b"? words are divided by single spaces, with none before or after\n",
        Fault::NoCommand => b"? no such command, help names them\n",
        Fault::WordCount => b"? a wrong count of words for this command\n",
        Fault::NoRow => b"? no such row, help names them\n",
        Fault::LongRow => b"? the row has fewer places than that\n",
        Fault::Misspelt => b"? a number is misspelt\n",
        Fault::BeyondType => b"? a number is too small or too large for its place\n",
        Fault::FewerLent => b"? fewer places of the row are lent\n",
    }
}

pub fn put_fault(page: &mut Page<PAGE>, fault: Fault)
    ensures text { page.new ≡ fault_line fault }
    ensures few { length page.new ≤ 1000 }
{
    page.start(words_of(fault));
}
