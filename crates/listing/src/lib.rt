// The listings of the programs: that of `boxes`, one line per arc, here.
#![tactic(auto)]

pub mod journeys;

ghost use Rattle.std.specs.Prelude.{◌≡◌, ◌+◌, ◌*◌, ◌≤◌, ◌<◌, ◌++◌, length};
ghost use Rattle.scan.specs.Ascii.{bytes};
ghost use Rattle.pages.specs.Page.{Puts};
ghost use Rattle.listing.specs.Listing.{box_text, line_text, listing};

use pages::{Number, PAGE, Page};
use walks::Network;

// A number and a space.
#[tactic(auto, unfolding(scan::specs::Ascii::bytes))]
fn put_field<T: Number>(page: &mut Page<PAGE>, n: T)
    requires { length page.old + T.most + 1 ≤ PAGE }
    ensures puts { Puts (T.spelt n ++ bytes " ") page.old page.new }
    ensures upper_bound { length page.new ≤ length page.old + T.most + 1 }
{
    page.put_number(n);
    page.put(b" ");
}

// The four sides of an arc's box, and the line's end.
#[tactic(auto, unfolding(scan::specs::Ascii::bytes))]
fn put_box(page: &mut Page<PAGE>, boxes: &[i32], k: usize)
    requires { (length page.old + 48 ≤ PAGE) × (k + 4 ≤ length boxes.now) }
    ensures puts { Puts (box_text boxes.now k) page.old page.new }
    ensures upper_bound { length page.new ≤ length page.old + 48 }
{
    put_field(page, boxes[k]);
    put_field(page, boxes[k + 1]);
    put_field(page, boxes[k + 2]);
    page.put_number(boxes[k + 3]);
    page.put(b"\n");
}

// An arc's line: arc, tail, head, weight, left, right, low, high.
#[tactic(auto, unfolding(crate::specs::Listing::line_text))]
fn put_line(page: &mut Page<PAGE>, i: usize, net: Network, boxes: &[i32])
    requires { (length page.old + 92 ≤ PAGE) × (i < 2048) × (i < length net.tails.now) × (i < length net.heads.now) × (i < length net.weights.now) × (4 * i + 4 ≤ length boxes.now) }
    ensures puts { Puts (line_text net.entry.tails.now net.entry.heads.now net.entry.weights.now boxes.now i) page.old page.new }
    ensures upper_bound { length page.new ≤ length page.old + 92 }
{
    put_field(page, i as u32 + 1);
    put_field(page, net.tails[i]);
    put_field(page, net.heads[i]);
    put_field(page, net.weights[i]);
    put_box(page, boxes, 4 * i);
}

// The lines of the arcs 1..m.
#[tactic(auto, unfolding(crate::specs::Listing::listing))]
pub fn put_listing(page: &mut Page<PAGE>, net: Network, boxes: &[i32])
    requires { (net.m ≤ 2048) × (net.m ≤ length net.tails.now) × (net.m ≤ length net.heads.now) × (net.m ≤ length net.weights.now) × (4 * net.m ≤ length boxes.now) }
    ensures { page.new ≡ listing net.entry.tails.now net.entry.heads.now net.entry.weights.now boxes.now net.entry.m }
{
    page.clear();
    for i in 0..net.m as usize {
        put_line(page, i, net, boxes);
    }
}
