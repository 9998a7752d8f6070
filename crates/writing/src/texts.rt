// The texts, each put together on a page.
ghost use Rattle.std.specs.Prelude.{◌≡◌, ◌≤◌, length};
ghost use Rattle.walks.specs.Lent.{rows_of};
ghost use Rattle.writing.specs.Text.{gr_text, co_text};

use crate::lines::{ROOM, put_arc_line, put_graph_line, put_node_line, put_places_line};
use pages::Page;
use walks::Network;

// The text of a network, in the place of what stood on the page.
pub fn put_network(page: &mut Page<ROOM>, net: Network)
    requires m_in_bounds { (net.m ≤ length net.tails.now) × (net.m ≤ length net.heads.now) × (net.m ≤ length net.weights.now) }
    requires text_fits { length (gr_text net.n net.m (rows_of net)) ≤ 36878 }
    ensures { page.new ≡ gr_text net.entry.n net.entry.m (rows_of net.entry) }
{
    page.clear();
    put_graph_line(page, net.n, net.m);
    for i in 0..net.m as usize {
        put_arc_line(page, net.tails[i], net.heads[i], net.weights[i]);
    }
}

// The text of the coordinates, in the place of what stood on the page.
pub fn put_places(page: &mut Page<ROOM>, n: u32, x: &[i32], y: &[i32])
    requires n_in_bounds { (n ≤ length x.now) × (n ≤ length y.now) }
    requires text_fits { length (co_text n x.now y.now) ≤ 36878 }
    ensures { page.new ≡ co_text n x.now y.now }
{
    page.clear();
    put_places_line(page, n);
    for i in 0..n {
        put_node_line(page, i + 1, x[i as usize], y[i as usize]);
    }
}
