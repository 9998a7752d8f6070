// Why an arc is not on the route, in words.
ghost use Rattle.std.specs.Prelude.{◌≡◌, ◌≤◌, length};
ghost use Rattle.replies.specs.Replies.{reason_line};

use pages::{PAGE, Page};
use reasons::Reason;
use rules::Refusal;
use wording::put_refusal;

// `ok`, the reason's number and its words; or why the question was refused.
#[tactic(auto, unfolding(crate::specs::Replies::reason_line, scan::specs::Ascii::bytes))]
pub fn put_reason(page: &mut Page<PAGE>, why: Result<Reason, Refusal>)
    ensures text { page.new ≡ reason_line why }
    ensures few { length page.new ≤ 1000 }
{
    match why {
        Ok(Reason::Closed) => page.start(b"ok 1 (the track is closed)\n"),
        Ok(Reason::CutOff) => page.start(
            b"ok 2 (its start cannot be reached, or the target not from its end)\n",
        ),
        Ok(Reason::Longer { excess }) => {
            page.start(b"ok 3 ");
            page.put_number(excess);
            page.put(b" (the best way through it is longer by ");
            page.put_number(excess);
            page.put(b")\n");
        }
        Ok(Reason::Tied) => page.start(
            b"ok 4 (an equally short way uses it, and the tie rule picked another)\n",
        ),
        Ok(Reason::OnRoute) => page.start(b"ok 5 (it is on the route)\n"),
        Err(refusal) => put_refusal(page, refusal),
    }
}
