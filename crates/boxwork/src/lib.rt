// The work on boxes and masks over rows as they are lent: build, check and update.
#![tactic(auto)]

ghost use Rattle.std.specs.Prelude.{◌≡◌, true, ◌-◌, ◌≤◌, length, set};
ghost use Rattle.rules.specs.Paper.{judged_reply};
ghost use Rattle.geometry.specs.Row.{Shaped};
ghost use Rattle.walks.specs.Rows.{rows, network};
ghost use Rattle.walks.specs.Lent.{rows_of};
ghost use Rattle.walks.specs.Judged.{rows_in};
ghost use Rattle.passing.specs.Signs.{signs};
ghost use Rattle.passing.specs.Asking.{Lent};
ghost use Rattle.passing.specs.Lent.{signs_of};
ghost use Rattle.boxwork.specs.Says.{BuildBy, BuildSays, CheckBy, UpdateSays};
ghost use Rattle.boxwork.specs.Missing.{Missing};

use drawing::compare::{Miss, find_miss};
use drawing::gather::{empty_boxes, empty_masks, gather_all};
use passing::{Nodes, Signs};
use rules::{Asked, Change, Refusal};
use walks::Network;
use walks::tracks::Tracks;

// Build writes what is asked: the tight boxes, each the smallest that holds its S(e), or the mark where S(e) is empty; the masks, each
// with the modules of its S(e).
pub fn build(
    asked: Asked,
    net: Network,
    nodes: Nodes,
    boxes: &mut [i32],
    masks: &mut [u32],
) -> Result<(), Refusal>
    ensures { BuildBy asked net.entry.n net.entry.m (rows_of net.entry) (signs nodes.entry.x.now nodes.entry.y.now boxes.old nodes.entry.modules.now masks.old) (judged_reply result) boxes.new masks.new }
{
    let signs = Signs {
        nodes,
        boxes,
        masks,
    };
    judging::judge_build(asked, net, signs)?;
    let tracks = net.tracks();
    empty_boxes(asked.boxes, tracks.m, boxes);
    empty_masks(asked.masks, tracks.m, masks);
    gather_all(asked, tracks, nodes, boxes, masks);
    Ok(())
}

// Build of boxes alone, for who has no modules.
pub fn build_boxes(net: Network, x: &[i32], y: &[i32], boxes: &mut [i32]) -> Result<(), Refusal>
    ensures { BuildSays net.entry.n net.entry.m (rows_of net.entry) x.now y.now boxes.old (judged_reply result) boxes.new }
{
    let nodes = Nodes { x, y, modules: &[] };
    build(Asked::BOXES, net, nodes, boxes, &mut [])
}

// 13 where a box or a mask that is asked misses a node of its S(e), with the lowest arc, and then its lowest missed node.
fn judge_misses(asked: Asked, tracks: Tracks, signs: Signs) -> Result<(), Refusal>
    requires { Lent asked tracks.n tracks.m (signs_of signs) × (asked.boxes ≡ true → Shaped tracks.m signs.boxes.now) }
    ensures { Missing (network tracks.entry.m (rows_in tracks.entry)) asked (signs_of signs.entry) result }
{
    if !(asked.boxes | asked.masks) {
        return Ok(());
    }
    match find_miss(asked, tracks, signs) {
        None => Ok(()),
        Some(Miss { arc, node }) => Err(Refusal::Misses { arc, node }),
    }
}

// Check accepts exactly what is consistent: each box and each mask that is asked keeps all of its S(e). Else 13, boxes first.
pub fn check(asked: Asked, net: Network, signs: Signs) -> Result<(), Refusal>
    ensures { CheckBy asked net.entry.n net.entry.m (rows_of net.entry) (signs_of signs.entry) (judged_reply result) }
{
    judging::judge_check(asked, net, signs)?;
    let tracks = net.tracks();
    let boxes_alone = Asked {
        masks: false,
        ..asked
    };
    judge_misses(boxes_alone, tracks, signs)?;
    let masks_alone = Asked {
        boxes: false,
        ..asked
    };
    judge_misses(masks_alone, tracks, signs)
}

// An arc's new weight and its new closure are written.
fn set_arc(weights: &mut [u32], closures: &mut [u8], change: Change)
    requires { (1 ≤ change.arc) × (change.arc ≤ length weights.old) × (change.arc ≤ length closures.old) }
    ensures weights_after { weights.new ≡ set weights.old (change.arc - 1) change.weight }
    ensures closures_after { closures.new ≡ set closures.old (change.arc - 1) change.closure }
{
    let at = change.arc as usize - 1;
    weights[at] = change.weight;
    closures[at] = change.closure;
}

// Update writes an arc's new weight and its new closure, and makes each box the smallest that holds its old box and its tight box in
// the new network. What it writes is lent row by row, beside what it only reads.
pub fn update(
    n: u32,
    m: u32,
    tails: &[u32],
    heads: &[u32],
    weights: &mut [u32],
    closures: &mut [u8],
    x: &[i32],
    y: &[i32],
    boxes: &mut [i32],
    change: Change,
) -> Result<(), Refusal>
    ensures { UpdateSays n m (rows tails.now heads.now weights.old closures.old) x.now y.now boxes.old change.arc change.weight change.closure (judged_reply result) (rows tails.now heads.now weights.new closures.new) boxes.new }
{
    let old = Network {
        n,
        m,
        tails,
        heads,
        weights,
        closures,
    };
    let signs = Signs::of_boxes(x, y, boxes);
    judging::judge_update(Asked::BOXES, old, signs, change)?;
    set_arc(weights, closures, change);
    let new = Network {
        n,
        m,
        tails,
        heads,
        weights,
        closures,
    };
    let nodes = Nodes { x, y, modules: &[] };
    gather_all(Asked::BOXES, new.tracks(), nodes, boxes, &mut []);
    Ok(())
}
