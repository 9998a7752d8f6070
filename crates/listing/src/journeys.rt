// The listing of `journeys`: one line per query, and the totals.
ghost use Rattle.std.specs.Prelude.{◌≡◌, ◌+◌, ◌≤◌, length};
ghost use Rattle.pages.specs.Page.{Puts};
ghost use Rattle.listing.specs.Journeys.{length_text, journey_text, journeys_text, totals_text};

use crate::put_field;
use pages::{PAGE, Page};

// A length, or `no route` for its mark.
#[tactic(auto, unfolding(crate::specs::Journeys::length_text, scan::specs::Ascii::bytes))]
fn put_length(page: &mut Page<PAGE>, l: u32)
    requires { length page.old + 10 ≤ PAGE }
    ensures puts { Puts (length_text l) page.old page.new }
    ensures upper_bound { length page.new ≤ length page.old + 10 }
{
    if l == u32::MAX {
        page.put(b"no route");
    } else {
        page.put_number(l);
    }
}

// A query's line: source, target, length.
#[tactic(auto, unfolding(crate::specs::Journeys::journey_text, scan::specs::Ascii::bytes))]
fn put_journey(page: &mut Page<PAGE>, s: u32, t: u32, l: u32)
    requires { length page.old + 33 ≤ PAGE }
    ensures puts { Puts (journey_text s t l) page.old page.new }
    ensures upper_bound { length page.new ≤ length page.old + 33 }
{
    put_field(page, s);
    put_field(page, t);
    put_length(page, l);
    page.put(b"\n");
}

// The lines of the first k queries.
#[tactic(auto, unfolding(crate::specs::Journeys::journeys_text))]
pub fn put_journeys(
    page: &mut Page<PAGE>,
    k: usize,
    sources: &[u32; 256],
    targets: &[u32; 256],
    lengths: &[u32; 256],
)
    requires { k ≤ 256 }
    ensures listed { page.new ≡ journeys_text sources.now targets.now lengths.now k }
    ensures upper_bound { length page.new ≤ 20000 }
{
    page.clear();
    for i in 0..k {
        put_journey(page, sources[i], targets[i], lengths[i]);
    }
}

// The totals: how many had a route, how many had none, and the sum of the lengths found.
#[tactic(auto, unfolding(crate::specs::Journeys::totals_text, scan::specs::Ascii::bytes))]
pub fn put_totals(page: &mut Page<PAGE>, found: u32, none: u32, sum: u64)
    requires { length page.old ≤ 20000 }
    ensures puts { Puts (totals_text found none sum) page.old page.new }
    ensures upper_bound { length page.new ≤ length page.old + 43 }
{
    put_field(page, found);
    put_field(page, none);
    page.put_number(sum);
    page.put(b"\n");
}
