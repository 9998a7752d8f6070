// What each format says of its lines: their forms, and the limits of the numbers on them.
ghost use Rattle.std.specs.Prelude.{◌≡◌};
ghost use Rattle.scan.specs.Held.{held_line};
ghost use Rattle.dimacs.specs.Rules.{naturals, located, none_above, within};
ghost use Rattle.dimacs.specs.Gr.{gr_line, gr_rules};
ghost use Rattle.dimacs.specs.Co.{co_line, co_rules};
ghost use Rattle.dimacs.specs.P2p.{p2p_line, p2p_rules};
ghost use Rattle.dimacs.specs.Formats.{format_line, rules_of};

use crate::rows::Column;
use scan::fields::Fault;
use scan::holding::Numbers;
use scan::line::{Line, read_line};

// A format; the coordinates, and the queries, are of a graph of so many nodes.
#[derive(Clone, Copy)]
pub enum Format {
    Graph,
    Coordinates(u32),
    Queries(u32),
}

// The least and the most that each number of a line may be.
#[derive(Clone, Copy)]
pub struct Limits {
    pub least: Numbers,
    pub most: Numbers,
}

// What is asked of the numbers on a format's lines.
#[derive(Clone, Copy)]
pub struct Rules {
    // the limits on the problem line
    pub problem: Limits,
    // which number on it counts the data lines, and the fewest and the most of them
    pub count: Column,
    pub fewest: u32,
    pub most: u32,
    // the limits on a data line
    pub entries: Limits,
    // whether each node has one data line, in any order
    pub once: bool,
}

impl Limits {
    // Whether each number of a line is within its limits.
    #[tactic(auto, unfolding(crate::specs::Rules::within))]
    pub fn hold(self, ns: Numbers) -> bool
        ensures { result ≡ within self ns }
    {
        none_above(self.least, ns) && none_above(ns, self.most)
    }
}

// Whether each number of a is at most its fellow of b. With `&`, which makes no branches, the check finds the proof.
fn none_above(a: Numbers, b: Numbers) -> bool
    ensures { result ≡ none_above a b }
{
    (a.first <= b.first)
        & (a.second <= b.second)
        & (a.third <= b.third)
        & (a.x <= b.x)
        & (a.y <= b.y)
}

// Numbers without sign.
fn naturals(first: u32, second: u32, third: u32) -> Numbers
    ensures { result ≡ naturals first second third }
{
    Numbers {
        first,
        second,
        third,
        x: 0,
        y: 0,
    }
}

// A number without sign, and twice one that may have a minus.
fn located(node: u32, place: i32) -> Numbers
    ensures { result ≡ located node place place }
{
    Numbers {
        first: node,
        second: 0,
        third: 0,
        x: place,
        y: place,
    }
}

// `p sp N M` and `a U V W`, after a problem line with this N.
#[tactic(auto, unfolding(crate::specs::Gr::gr_rules))]
fn rules_gr(n: u32) -> Rules
    ensures { result ≡ gr_rules n }
{
    Rules {
        problem: Limits {
            least: naturals(1, 0, 0),
            most: naturals(rules::NODES, rules::ARCS, 0),
        },
        count: Column::Second,
        fewest: 0,
        most: rules::ARCS,
        entries: Limits {
            least: naturals(1, 1, 0),
            most: naturals(n, n, rules::WEIGHT),
        },
        once: false,
    }
}

// `p aux sp co N` and `v ID X Y`, for a graph of n nodes.
#[tactic(auto, unfolding(crate::specs::Co::co_rules))]
fn rules_co(n: u32) -> Rules
    ensures { result ≡ co_rules n }
{
    Rules {
        problem: Limits {
            least: naturals(1, 0, 0),
            most: naturals(rules::NODES, 0, 0),
        },
        count: Column::First,
        fewest: n,
        most: n,
        entries: Limits {
            least: located(1, rules::LEAST_COORDINATE),
            most: located(n, rules::MOST_COORDINATE),
        },
        once: true,
    }
}

// `p aux sp p2p K` and `q S T`, for a graph of n nodes.
#[tactic(auto, unfolding(crate::specs::P2p::p2p_rules))]
fn rules_p2p(n: u32) -> Rules
    ensures { result ≡ p2p_rules n }
{
    Rules {
        problem: Limits {
            least: naturals(0, 0, 0),
            most: naturals(rules::QUERIES, 0, 0),
        },
        count: Column::First,
        fewest: 0,
        most: rules::QUERIES,
        entries: Limits {
            least: naturals(1, 1, 0),
            most: naturals(n, n, 0),
        },
        once: false,
    }
}

impl Format {
    // The rules of a format after its problem line, or before it with no numbers.
    pub fn rules(self, problem: Numbers) -> Rules
        ensures { result ≡ rules_of self problem }
    {
        match self {
            Format::Graph => rules_gr(problem.first),
            Format::Coordinates(n) => rules_co(n),
            Format::Queries(n) => rules_p2p(n),
        }
    }

    // What a line is.
    pub fn line(self, s: &[u8]) -> Result<Line, Fault>
        ensures { result ≡ held_line (format_line self s.now) }
    {
        match self {
            Format::Graph => line_gr(s),
            Format::Coordinates(_) => line_co(s),
            Format::Queries(_) => line_p2p(s),
        }
    }
}

// A line of a graph, of coordinates, and of queries.
#[tactic(auto, unfolding(crate::specs::Gr::gr_line, scan::specs::Ascii::bytes))]
fn line_gr(s: &[u8]) -> Result<Line, Fault>
    ensures { result ≡ held_line (gr_line s.now) }
{
    read_line(s, b"p sp N M", b"a U V W")
}

#[tactic(auto, unfolding(crate::specs::Co::co_line, scan::specs::Ascii::bytes))]
fn line_co(s: &[u8]) -> Result<Line, Fault>
    ensures { result ≡ held_line (co_line s.now) }
{
    read_line(s, b"p aux sp co N", b"v ID X Y")
}

#[tactic(auto, unfolding(crate::specs::P2p::p2p_line, scan::specs::Ascii::bytes))]
fn line_p2p(s: &[u8]) -> Result<Line, Fault>
    ensures { result ≡ held_line (p2p_line s.now) }
{
    read_line(s, b"p aux sp p2p K", b"q S T")
}
