// `gr` and `co`: what was read of a file goes into rows.
ghost use Rattle.std.specs.Prelude.{◌≤◌, length};
ghost use Rattle.walks.specs.Rows.{rows};
ghost use Rattle.files.specs.File.{held_of};
ghost use Rattle.calls.specs.Texts.{ReadsGraph, ReadsPlaces};

use pages::{PAGE, Page};
use replies::answers::put_sizes;
use replies::words::put_judged;
use rules::Sizes;
use wording::{put_no_file, put_refusal};

// `gr`: the numbers n and m from now on, which are the file's where it is read.
pub fn read_graph(
    page: &mut Page<PAGE>,
    text: Option<&[u8]>,
    sizes: Sizes,
    tails: &mut [u32],
    heads: &mut [u32],
    weights: &mut [u32],
    closures: &mut [u8],
) -> Sizes
    ensures reads { ReadsGraph (held_of text.entry) sizes (rows tails.old heads.old weights.old closures.old) page.new result (rows tails.new heads.new weights.new closures.new) }
    ensures few { length page.new ≤ 1000 }
{
    let Some(text) = text else {
        put_no_file(page);
        return sizes;
    };
    match dimacs::read_gr(text, tails, heads, weights, closures) {
        Ok(read) => {
            put_sizes(page, read);
            read
        }
        Err(why) => {
            put_refusal(page, why);
            sizes
        }
    }
}

// `co`.
pub fn read_places(page: &mut Page<PAGE>, text: Option<&[u8]>, n: u32, x: &mut [i32], y: &mut [i32])
    ensures reads { ReadsPlaces (held_of text.entry) n x.old y.old page.new x.new y.new }
    ensures few { length page.new ≤ 1000 }
{
    let Some(text) = text else {
        put_no_file(page);
        return;
    };
    let read = dimacs::read_co(text, n, x, y);
    put_judged(page, read);
}
