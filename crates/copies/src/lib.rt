// A row that a call writes is copied for it, and what it leaves is put back.
#![tactic(auto)]

ghost use Rattle.commands.specs.declared.Call.TheVariants as call;
ghost use Rattle.commands.specs.declared.Request.TheVariants as request;
ghost use Rattle.calls.specs.Calls.{search_call};
ghost use Rattle.desk.specs.Requests.{Meets};

use calls::network::{build, check, search, update, why};
use commands::Call;
use commands::rows::Row;
use desk::network;
use lending::Desk;
use lending::rows::{fetch, give};
use pages::{PAGE, Page};
use rules::Change;

fn build_on(page: &mut Page<PAGE>, desk: &mut Desk)
    ensures { Meets desk.old (request.Call call.Build) page.new desk.new }
{
    let mut boxes = [0; 16384];
    let b = fetch(&desk.numbers, desk.lent, Row::Boxes, &mut boxes);
    build(
        page,
        network(desk),
        desk.numbers_of(Row::X),
        desk.numbers_of(Row::Y),
        &mut boxes[..b],
    );
    give(&mut desk.numbers, Row::Boxes, &boxes[..b]);
}

fn update_on(page: &mut Page<PAGE>, desk: &mut Desk, change: Change)
    ensures { Meets desk.old (request.Call (call.Update change)) page.new desk.new }
{
    let mut weights = [0; 4096];
    let w = fetch(&desk.counts, desk.lent, Row::Weights, &mut weights);
    let mut closures = [0; 4096];
    let c = fetch(&desk.bytes, desk.lent, Row::Closed, &mut closures);
    let mut boxes = [0; 16384];
    let b = fetch(&desk.numbers, desk.lent, Row::Boxes, &mut boxes);
    update(
        page,
        desk.sizes,
        desk.counts_of(Row::Tails),
        desk.counts_of(Row::Heads),
        &mut weights[..w],
        &mut closures[..c],
        desk.numbers_of(Row::X),
        desk.numbers_of(Row::Y),
        &mut boxes[..b],
        change,
    );
    give(&mut desk.counts, Row::Weights, &weights[..w]);
    give(&mut desk.bytes, Row::Closed, &closures[..c]);
    give(&mut desk.numbers, Row::Boxes, &boxes[..b]);
}

fn search_on(page: &mut Page<PAGE>, desk: &mut Desk, by_boxes: bool, s: u32, t: u32)
    ensures { Meets desk.old (request.Call (search_call by_boxes s t)) page.new desk.new }
{
    let mut route = [0; 1024];
    let k = fetch(&desk.counts, desk.lent, Row::Route, &mut route);
    search(
        page,
        by_boxes,
        network(desk),
        desk.numbers_of(Row::X),
        desk.numbers_of(Row::Y),
        desk.numbers_of(Row::Boxes),
        s,
        t,
        &mut route[..k],
    );
    give(&mut desk.counts, Row::Route, &route[..k]);
}

// A call on the network that is lent, and its reply.
pub fn call_on(page: &mut Page<PAGE>, desk: &mut Desk, call: Call)
    ensures { Meets desk.old (request.Call call) page.new desk.new }
{
    match call {
        Call::Build => build_on(page, desk),
        Call::Check => check(
            page,
            network(desk),
            desk.numbers_of(Row::X),
            desk.numbers_of(Row::Y),
            desk.numbers_of(Row::Boxes),
        ),
        Call::Update(change) => update_on(page, desk, change),
        Call::Search(s, t) => search_on(page, desk, false, s, t),
        Call::Boxed(s, t) => search_on(page, desk, true, s, t),
        Call::Why(s, t, arc) => why(page, network(desk), s, t, arc),
    }
}
