// The calls on a network, and the reply to each on a page.
ghost use Rattle.std.specs.Prelude.{ℕ, ◌≡◌, ◌≤◌, List, length};
ghost use Rattle.walks.specs.Rows.{rows};
ghost use Rattle.walks.specs.Lent.{rows_of};
ghost use Rattle.calls.specs.Calls.{Given, given, arcs, with_boxes, with_route, sizes_of, search_call, Makes};
ghost use Rattle.commands.specs.declared.Call.TheVariants as call;

use pages::{PAGE, Page};
use passing::Signs;
use replies::answers::put_answer;
use replies::why::put_reason;
use replies::words::put_judged;
use rules::{Asked, Change, Sizes};
use walks::Network;

// `build`, whatever the route row holds.
pub fn build(page: &mut Page<PAGE>, net: Network, x: &[i32], y: &[i32], boxes: &mut [i32])
    ensures { (route : List ℕ) → let before = given (rows_of net.entry) x.now y.now boxes.old route in Makes (sizes_of net.entry) before call.Build page.new (with_boxes boxes.new before) }
{
    let built = boxwork::build_boxes(net, x, y, boxes);
    put_judged(page, built);
}

// `check`.
pub fn check(page: &mut Page<PAGE>, net: Network, x: &[i32], y: &[i32], boxes: &[i32])
    ensures { (route : List ℕ) → let rows = given (rows_of net.entry) x.now y.now boxes.now route in Makes (sizes_of net.entry) rows call.Check page.new rows }
{
    let checked = boxwork::check(Asked::BOXES, net, Signs::of_boxes(x, y, boxes));
    put_judged(page, checked);
}

// `update`. The rows that it writes are lent beside those that it only reads.
pub fn update(
    page: &mut Page<PAGE>,
    sizes: Sizes,
    tails: &[u32],
    heads: &[u32],
    weights: &mut [u32],
    closures: &mut [u8],
    x: &[i32],
    y: &[i32],
    boxes: &mut [i32],
    change: Change,
)
    ensures { (route : List ℕ) → let before = given (rows tails.now heads.now weights.old closures.old) x.now y.now boxes.old route in let after = given (rows tails.now heads.now weights.new closures.new) x.now y.now boxes.new route in Makes sizes before (call.Update change) page.new after }
{
    let updated = boxwork::update(
        sizes.n, sizes.m, tails, heads, weights, closures, x, y, boxes, change,
    );
    put_judged(page, updated);
}

// `search`, or `boxed` where boxes are asked.
pub fn search(
    page: &mut Page<PAGE>,
    by_boxes: bool,
    net: Network,
    x: &[i32],
    y: &[i32],
    boxes: &[i32],
    s: u32,
    t: u32,
    route: &mut [u32],
)
    requires { length route.old ≤ 16384 }
    ensures { let before = given (rows_of net.entry) x.now y.now boxes.now route.old in Makes (sizes_of net.entry) before (search_call by_boxes s t) page.new (with_route route.new before) }
{
    let asked = Asked {
        boxes: by_boxes,
        masks: false,
    };
    let answer = search::search(asked, net, Signs::of_boxes(x, y, boxes), s, t, route);
    put_answer(page, answer, route);
}

// `why`.
pub fn why(page: &mut Page<PAGE>, net: Network, s: u32, t: u32, arc: u32)
    ensures { (g : Given) → arcs g ≡ rows_of net.entry → Makes (sizes_of net.entry) g (call.Why s t arc) page.new g }
{
    let reason = reasons::why(net, s, t, arc);
    put_reason(page, reason);
}
