// The answers that hold numbers: of a search, of a graph file, of a day's list, and of a text that is written.
ghost use Rattle.std.specs.Prelude.{◌≤◌, ◌≡◌, length, take};
ghost use Rattle.replies.specs.Replies.{sizes_line, day_line, answer_line, written_line};

use daylist::Totals;
use listing::journeys::put_totals;
use pages::{PAGE, Page};
use rules::{Refusal, Sizes};
use search::Found;
use wording::put_refusal;

// The first k places of a row, or all where there are fewer.
fn first_places(row: &[u32], k: usize) -> &[u32]
    ensures result_value { result.now ≡ take k row.now }
    ensures result_in_bounds { length result.now ≤ length row.now }
{
    &row[..k.min(row.len())]
}

// `ok`, length, arcs, settled and the route's arcs; or why a search was refused.
#[tactic(auto, unfolding(crate::specs::Replies::answer_line, scan::specs::Ascii::bytes))]
pub fn put_answer(page: &mut Page<PAGE>, answer: Result<Found, Refusal>, route: &[u32])
    requires { length route.now ≤ 16384 }
    ensures { page.new ≡ answer_line answer route.now }
{
    match answer {
        Ok(found) => {
            page.start(b"ok ");
            page.put_number(found.length);
            page.put(b" ");
            page.put_number(found.arcs);
            page.put(b" ");
            page.put_number(found.settled);
            page.put_row(first_places(route, found.arcs as usize));
            page.put(b"\n");
        }
        Err(refusal) => put_refusal(page, refusal),
    }
}

// `ok` and the numbers n and m of a graph file.
#[tactic(auto, unfolding(crate::specs::Replies::sizes_line, scan::specs::Ascii::bytes))]
pub fn put_sizes(page: &mut Page<PAGE>, sizes: Sizes)
    ensures text { page.new ≡ sizes_line sizes.n sizes.m }
    ensures few { length page.new ≤ 1000 }
{
    page.start(b"ok ");
    page.put_number(sizes.n);
    page.put(b" ");
    page.put_number(sizes.m);
    page.put(b"\n");
}

// `ok` and the totals of a day's list, or why it was refused.
#[tactic(auto, unfolding(crate::specs::Replies::day_line, scan::specs::Ascii::bytes))]
pub fn put_day(page: &mut Page<PAGE>, day: Result<Totals, Refusal>)
    ensures text { page.new ≡ day_line day }
    ensures few { length page.new ≤ 1000 }
{
    match day {
        Ok(totals) => {
            page.start(b"ok ");
            put_totals(page, totals.found, totals.none, totals.sum);
        }
        Err(refusal) => put_refusal(page, refusal),
    }
}

// `ok` and the length of a text that is written, or why it is refused.
#[tactic(auto, unfolding(crate::specs::Replies::written_line, scan::specs::Ascii::bytes))]
pub fn put_written(page: &mut Page<PAGE>, reply: Result<usize, Refusal>)
    ensures text { page.new ≡ written_line reply }
    ensures few { length page.new ≤ 1000 }
{
    match reply {
        Ok(length) => {
            page.start(b"ok ");
            page.put_number(length as u64);
            page.put(b"\n");
        }
        Err(refusal) => put_refusal(page, refusal),
    }
}
