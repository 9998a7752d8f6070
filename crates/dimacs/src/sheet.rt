// A text of any format: one problem line, then as many data lines as it says; comments anywhere.
ghost use Rattle.std.specs.Prelude.{◌≡◌, true, ◌≤◌, length};
ghost use Rattle.dimacs.specs.Fair.{FormatFair};
ghost use Rattle.dimacs.specs.Texts.{place, read_text, outcome_of};

use crate::format::{Format, Rules};
use crate::judge::{Head, judge_data, judge_end, judge_problem, refusal_of};
use rules::Refusal;
use scan::holding::Numbers;
use scan::line::Line;
use scan::pieces::pieces_of;

// A text that was read: its problem line, and its data lines, each at its place.
#[derive(Drop)]
pub struct Sheet {
    pub problem: Numbers,
    pub lines: [Numbers; 2048],
}

// The place of a data line that is fine.
fn place_of(rules: Rules, head: Head, ns: Numbers) -> usize
    requires { rules.once ≡ true → 1 ≤ ns.first }
    ensures { result ≡ place rules head ns }
{
    let place = if rules.once { ns.first - 1 } else { head.count };
    place as usize
}

// Reads the lines of a text, one after the other.
pub fn read_sheet(text: &[u8], format: Format) -> Result<Sheet, Refusal>
    requires { (length text.now ≤ 65536) × FormatFair format }
    ensures { outcome_of format result ≡ read_text format text.now }
{
    // A line is handed on as it stands, so what is taken stands beside the lines.
    let mut lines = [Numbers::default(); 2048];
    let mut taken = [false; 2048];
    let mut head = Head {
        problem: None,
        count: 0,
    };
    let mut line: u32 = 1;
    for s in pieces_of(text, b'\n') {
        let rules = format.rules(head.numbers());
        match format.line(s) {
            Err(fault) => return Err(refusal_of(fault, line)),
            Ok(Line::Comment) => {}
            Ok(Line::Problem(ns)) => {
                judge_problem(rules, head, ns, line)?;
                head.problem = Some(ns);
            }
            Ok(Line::Data(ns)) => {
                judge_data(rules, head, &taken, ns, line)?;
                let i = place_of(rules, head, ns);
                taken[i] = true;
                lines[i] = ns;
                head.count += 1;
            }
        }
        line += 1;
    }
    let problem = head.numbers();
    judge_end(format.rules(problem), head, line)?;
    Ok(Sheet { problem, lines })
}
