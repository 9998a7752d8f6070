// Boxes and masks emptied, and made of the nodes of their S(e): boxes of the places, masks of the modules. A box stands in four
// places of its row and a mask in one, so each kind has its own loop.
ghost use Rattle.std.specs.Prelude.{◌≡◌, true, ◌*◌, ◌≤◌, length};
ghost use Rattle.geometry.specs.Box.{mark};
ghost use Rattle.walks.specs.Rows.{at};
ghost use Rattle.walks.specs.Judged.{rows_in};
ghost use Rattle.passing.specs.Signs.{signs};
ghost use Rattle.passing.specs.Asking.{Lent};
ghost use Rattle.drawing.specs.Leads.{leads_to};
ghost use Rattle.drawing.specs.Drawn.{DrawnIf, box_row, mask_row, mark_of};
ghost use Rattle.drawing.specs.Gathered.{add_place, add_module, Emptied, AddedOnce, AddedAll};

use crate::mark::mark_toward;
use frontier::chain::Chain;
use passing::Nodes;
use rules::Asked;
use walks::tracks::Tracks;

// Each arc's box becomes the mark, which holds nothing, where boxes are asked.
pub fn empty_boxes(asked: bool, m: usize, boxes: &mut [i32])
    requires { (m ≤ 2048) × (asked ≡ true → 4 * m ≤ length boxes.old) }
    ensures { DrawnIf asked box_row m (Emptied mark) boxes.old boxes.new }
{
    if !asked {
        return;
    }
    for e in 0..m {
        geometry::empty_box(boxes, e + 1);
    }
}

// Each arc's mask becomes 0, which has no module, where masks are asked.
pub fn empty_masks(asked: bool, m: usize, masks: &mut [u32])
    requires { (m ≤ 2048) × (asked ≡ true → m ≤ length masks.old) }
    ensures { DrawnIf asked mask_row m (Emptied 0) masks.old masks.new }
{
    if !asked {
        return;
    }
    masks[..m].fill(0);
}

// Each marked arc's box takes in the place of node t, where boxes are asked.
fn add_place(
    asked: bool,
    marked: &[bool; 2048],
    m: usize,
    nodes: Nodes,
    t: usize,
    boxes: &mut [i32],
)
    requires { (m ≤ 2048) × (1 ≤ t) × (asked ≡ true → (t ≤ length nodes.x.now) × (t ≤ length nodes.y.now) × (4 * m ≤ length boxes.old)) }
    ensures { DrawnIf asked box_row m (AddedOnce (mark_of marked.now) (add_place nodes.entry.x.now nodes.entry.y.now t)) boxes.old boxes.new }
{
    if !asked {
        return;
    }
    let x = nodes.x[t - 1];
    let y = nodes.y[t - 1];
    for e in 0..m {
        if marked[e] {
            geometry::grow_box(boxes, e + 1, x, y);
        }
    }
}

// Each marked arc's mask gets the module of node t, where masks are asked.
fn add_module(
    asked: bool,
    marked: &[bool; 2048],
    m: usize,
    nodes: Nodes,
    t: usize,
    masks: &mut [u32],
)
    requires { let modules = nodes.modules.now in
        (m ≤ 2048) × (1 ≤ t) × (asked ≡ true → (t ≤ length modules) × (m ≤ length masks.old) × (1 ≤ at modules t) × (at modules t ≤ 32)) }
    ensures { DrawnIf asked mask_row m (AddedOnce (mark_of marked.now) (add_module nodes.entry.modules.now t)) masks.old masks.new }
{
    if !asked {
        return;
    }
    let j = nodes.modules[t - 1];
    for e in 0..m {
        if marked[e] {
            masks[e] = masks::with_module(masks[e], j);
        }
    }
}

// What is asked is made of the nodes of each S(e): one labelling for each node t.
pub fn gather_all(asked: Asked, tracks: Tracks, nodes: Nodes, boxes: &mut [i32], masks: &mut [u32])
    requires { Lent asked tracks.n tracks.m (signs nodes.x.now nodes.y.now boxes.old nodes.modules.now masks.old) }
    ensures boxes_drawn { let leads = leads_to (rows_in tracks.entry) tracks.entry.n tracks.entry.m in
        DrawnIf asked.boxes box_row tracks.entry.m (AddedAll leads (add_place nodes.entry.x.now nodes.entry.y.now) tracks.entry.n) boxes.old boxes.new }
    ensures masks_drawn { let leads = leads_to (rows_in tracks.entry) tracks.entry.n tracks.entry.m in
        DrawnIf asked.masks mask_row tracks.entry.m (AddedAll leads (add_module nodes.entry.modules.now) tracks.entry.n) masks.old masks.new }
{
    let chain = Chain::link(tracks.m, tracks.heads);
    let mut marked = [false; 2048];
    for t in 0..tracks.n {
        mark_toward(t + 1, tracks.m, tracks, &chain, &mut marked);
        add_place(asked.boxes, &marked, tracks.m, nodes, t + 1, boxes);
        add_module(asked.masks, &marked, tracks.m, nodes, t + 1, masks);
    }
}
