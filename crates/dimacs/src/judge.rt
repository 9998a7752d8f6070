// The judgement of a line, in the paper's order: 3, 15, 16 and 17 for its form, then 4, 5, 7, 6.
ghost use Rattle.std.specs.Prelude.{◌≡◌, true, ◌≤◌, Err};
ghost use Rattle.rules.specs.Judging.{passes};
ghost use Rattle.dimacs.specs.Judgement.{announced, numbers_of, problem_judged, again, data_judged, fault_at, ended};
ghost use Rattle.dimacs.specs.Fair.{Fair};

use crate::format::Rules;
use crate::rows::natural;
use rules::Refusal;
use scan::fields::{Fault, Kind};
use scan::holding::Numbers;

// What was read of a text so far: its problem line, once it was seen, and how many data lines.
#[derive(Clone, Copy)]
pub struct Head {
    pub problem: Option<Numbers>,
    pub count: u32,
}

impl Head {
    // The numbers of the problem line, or none before it.
    pub fn numbers(self) -> Numbers
        ensures { result ≡ numbers_of self }
    {
        self.problem.unwrap_or(Numbers::default())
    }
}

// A test, and the refusal where it fails.
pub fn passes(test: bool, refusal: Refusal) -> Result<(), Refusal>
    ensures { result ≡ passes test refusal }
{
    if test { Ok(()) } else { Err(refusal) }
}

// How many data lines the problem line announces.
fn announced(rules: Rules, problem: Numbers) -> u32
    ensures { result ≡ announced rules problem }
{
    natural(problem, rules.count)
}

// A problem line.
pub fn judge_problem(rules: Rules, head: Head, ns: Numbers, line: u32) -> Result<(), Refusal>
    ensures { result ≡ problem_judged rules head line ns }
{
    passes(head.problem.is_none(), Refusal::OutOfOrder { line })?;
    passes(rules.problem.hold(ns), Refusal::BeyondLimits { line })?;
    let count = announced(rules, ns);
    passes(
        rules.fewest <= count && count <= rules.most,
        Refusal::CountsDisagree { line },
    )
}

// Whether a line of its node was there before.
fn is_again(rules: Rules, taken: &[bool; 2048], node: u32) -> bool
    requires { rules.once ≡ true → (1 ≤ node) × (node ≤ 2048) }
    ensures { result ≡ again rules taken.now node }
{
    rules.once && taken[(node - 1) as usize]
}

// A data line; taken says of each place whether a line stands there.
pub fn judge_data(
    rules: Rules,
    head: Head,
    taken: &[bool; 2048],
    ns: Numbers,
    line: u32,
) -> Result<(), Refusal>
    requires { Fair rules }
    ensures { result ≡ data_judged rules head taken.now line ns }
{
    passes(head.problem.is_some(), Refusal::OutOfOrder { line })?;
    passes(rules.entries.hold(ns), Refusal::BeyondLimits { line })?;
    passes(
        !is_again(rules, taken, ns.first),
        Refusal::NodeAgain { line },
    )?;
    passes(
        head.count < announced(rules, head.numbers()),
        Refusal::CountsDisagree { line },
    )
}

// The fault of a line.
pub fn refusal_of(fault: Fault, line: u32) -> Refusal
    requires { fault.column ≤ 65537 }
    ensures { result ≡ fault_at line fault.column fault.kind }
{
    let column = fault.column as u32;
    match fault.kind {
        Kind::EmptyLine => Refusal::EmptyLine { line, column },
        Kind::NoLetter => Refusal::NoLetter { line, column },
        Kind::Misspelt => Refusal::Misspelt { line, column },
        Kind::Missing => Refusal::FieldCount { line, column },
        Kind::Extra => Refusal::FieldCount { line, column },
    }
}

// The end of a text; line is the number of lines plus one.
pub fn judge_end(rules: Rules, head: Head, line: u32) -> Result<(), Refusal>
    ensures { result ≡ ended rules head line }
{
    passes(
        head.problem.is_some() && head.count == announced(rules, head.numbers()),
        Refusal::CountsDisagree { line },
    )
}
