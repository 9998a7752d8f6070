// `write` and `save`: a text of the lent rows.
ghost use Rattle.std.specs.Prelude.{◌≤◌, [], length};
ghost use Rattle.commands.specs.declared.Request.TheVariants as request;
ghost use Rattle.desk.specs.Requests.{DeskWrites, Meets, HasSaved};

use calls::written::write_text;
use commands::rows::{COUNTS, NUMBERS, Row};
use commands::verbs::Format;
use commands::words::after_word;
use lending::Desk;
use lending::rows::{Lent, part_of};
use pages::{PAGE, Page};
use replies::answers::put_written;
use replies::words::put_unsaved;
use rules::{Refusal, Sizes};
use saving::save_file;
use std::rt::Files;
use walks::Network;

// Writes the text of the lent rows into another row; whatever the bytes are.
fn write_rows(
    format: Format,
    sizes: Sizes,
    lent: Lent,
    counts: &[u32; COUNTS],
    numbers: &[i32; NUMBERS],
    text: &mut [u8],
) -> Result<usize, Refusal>
    ensures { DeskWrites (record { sizes = sizes; lent = lent; counts = counts.now; numbers = numbers.now; bytes = [] }) format text.old result text.new }
{
    let net = Network {
        n: sizes.n,
        m: sizes.m,
        tails: part_of(counts, lent, Row::Tails),
        heads: part_of(counts, lent, Row::Heads),
        weights: part_of(counts, lent, Row::Weights),
        closures: &[],
    };
    let x = part_of(numbers, lent, Row::X);
    let y = part_of(numbers, lent, Row::Y);
    write_text(format, net, x, y, text)
}

// `write`: the text goes into the lent places of the row `text`.
pub fn write_row(page: &mut Page<PAGE>, desk: &mut Desk, format: Format)
    ensures meets { Meets desk.old (request.Write format) page.new desk.new }
    ensures few { length page.new ≤ 1000 }
{
    let a = Row::Text.stretch().start;
    let e = a + desk.lent.places_of(Row::Text);
    let text = &mut desk.bytes[a..e];
    let written = write_rows(
        format,
        desk.sizes,
        desk.lent,
        &desk.counts,
        &desk.numbers,
        text,
    );
    put_written(page, written);
}

// `save`: the text goes to the file that the line names. It is made on as many places as are lent of the row `text`, and that row stays.
pub fn save(rt: &impl Files, page: &mut Page<PAGE>, desk: &Desk, line: &[u8], format: Format)
    ensures saved { HasSaved desk.now format page.new }
    ensures few { length page.new ≤ 1000 }
{
    let mut text = [0; 40960];
    let text = &mut text[..desk.lent.places_of(Row::Text)];
    let written = write_rows(
        format,
        desk.sizes,
        desk.lent,
        &desk.counts,
        &desk.numbers,
        text,
    );
    let Ok(length) = written else {
        return put_written(page, written);
    };
    if save_file(rt, after_word(after_word(line)), &text[..length]).is_err() {
        return put_unsaved(page);
    }
    put_written(page, written);
}
