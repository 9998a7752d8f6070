// The lines of a graph and of a coordinate file, put on a page.
ghost use Rattle.std.specs.Prelude.{[], ◌∷◌, ◌≤◌, length};
ghost use Rattle.pages.specs.Page.{Puts};
ghost use Rattle.scan.specs.Written.{closed};
ghost use Rattle.writing.specs.Text.{graph_line, arc_line, places_line, node_line};

use pages::Page;

// The longest text that is written has 36,878 bytes; a line is put where there is room for the longest numbers.
pub const ROOM: usize = 36945;

// `p sp N M`
#[tactic(auto, using(crate::proofs::PutLaws::gr_put))]
pub fn put_graph_line(page: &mut Page<ROOM>, n: u32, m: u32)
    requires { length page.old ≤ 36878 }
    ensures { Puts (closed (graph_line n m ∷ [])) page.old page.new }
{
    page.put_after(b"p sp ", n);
    page.put_after(b" ", m);
    page.put(b"\n");
}

// `a U V W`
#[tactic(auto, using(crate::proofs::PutLaws::arc_put))]
pub fn put_arc_line(page: &mut Page<ROOM>, tail: u32, head: u32, weight: u32)
    requires { length page.old ≤ 36878 }
    ensures { Puts (closed (arc_line tail head weight ∷ [])) page.old page.new }
{
    page.put_after(b"a ", tail);
    page.put_after(b" ", head);
    page.put_after(b" ", weight);
    page.put(b"\n");
}

// `p aux sp co N`
#[tactic(auto, using(crate::proofs::PutLaws::co_put))]
pub fn put_places_line(page: &mut Page<ROOM>, n: u32)
    requires { length page.old ≤ 36878 }
    ensures { Puts (closed (places_line n ∷ [])) page.old page.new }
{
    page.put_after(b"p aux sp co ", n);
    page.put(b"\n");
}

// `v ID X Y`
#[tactic(auto, using(crate::proofs::PutLaws::node_put))]
pub fn put_node_line(page: &mut Page<ROOM>, node: u32, x: i32, y: i32)
    requires { length page.old ≤ 36878 }
    ensures { Puts (closed (node_line node x y ∷ [])) page.old page.new }
{
    page.put_after(b"v ", node);
    page.put_after(b" ", x);
    page.put_after(b" ", y);
    page.put(b"\n");
}
