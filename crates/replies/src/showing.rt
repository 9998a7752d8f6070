// Rows as replies.
ghost use Rattle.std.specs.Prelude.{◌≡◌, ◌+◌, ◌*◌, ◌<◌, length};
ghost use Rattle.replies.specs.Showing.{how_many, first_shown, show_line};

use crate::words::put_fault;
use commands::Fault;
use commands::rows::{Kind, Row};
use lending::Desk;
use pages::{Number, PAGE, Page};

// How many places of a row are to be shown, where so many are lent.
fn how_many(shown: Option<u32>, lent: usize) -> usize
    ensures { result ≡ how_many shown lent }
{
    shown.map_or(lent, |k| k as usize)
}

// The name of a row and the first of its values, as many as are to be shown.
#[tactic(auto, unfolding(crate::specs::Showing::first_shown, scan::specs::Ascii::bytes))]
fn show_values<T: Number>(page: &mut Page<PAGE>, name: &[u8], shown: Option<u32>, values: &[T])
    requires { (1 + T.most) * length values.now + length name.now < PAGE }
    ensures { page.new ≡ first_shown T.spelt name.now values.now (how_many shown (length values.now)) }
{
    let k = how_many(shown, values.len());
    if values.len() < k {
        return put_fault(page, Fault::FewerLent);
    }
    page.start(name);
    page.put_row(&values[..k]);
    page.put(b"\n");
}

// `show`.
pub fn show_row(page: &mut Page<PAGE>, desk: &Desk, row: Row, shown: Option<u32>)
    ensures { page.new ≡ show_line row shown desk.now }
{
    let name = row.name();
    match row.stretch().kind {
        Kind::Counts => show_values(page, name, shown, desk.counts_of(row)),
        Kind::Numbers => show_values(page, name, shown, desk.numbers_of(row)),
        Kind::Bytes => show_values(page, name, shown, desk.bytes_of(row)),
    }
}
