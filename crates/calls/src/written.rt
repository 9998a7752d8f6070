// A text of rows, in another row.
ghost use Rattle.walks.specs.Rows.{open_rows};
ghost use Rattle.calls.specs.Calls.{sizes_of};
ghost use Rattle.calls.specs.Writing.{TextWrites};

use commands::verbs::Format;
use rules::Refusal;
use walks::Network;
use writing::{write_co, write_gr};

// Writes the text of a kind of file.
pub fn write_text(
    format: Format,
    net: Network,
    x: &[i32],
    y: &[i32],
    text: &mut [u8],
) -> Result<usize, Refusal>
    ensures { TextWrites format (sizes_of net.entry) (open_rows net.entry.tails.now net.entry.heads.now net.entry.weights.now) x.now y.now text.old result text.new }
{
    match format {
        Format::Gr => write_gr(net.n, net.m, net.tails, net.heads, net.weights, text),
        Format::Co => write_co(net.n, x, y, text),
    }
}
