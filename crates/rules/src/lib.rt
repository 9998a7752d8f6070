// The limits of the route box and its numbered refusals, shared by every part.
#![tactic(auto)]

mod told;

ghost use Rattle.std.specs.Prelude.{◌≡◌};
ghost use Rattle.rules.specs.Paper.{refusal, number_of, place_of, tells_column};
ghost use Rattle.rules.specs.Told.{Tells};

pub use told::Told;
use told::tell;

// At most so many nodes and arcs.
pub const NODES: u32 = 512;

pub const ARCS: u32 = 2048;

// At most so many queries of a day's list.
pub const QUERIES: u32 = 256;

// The heaviest weight, in tenths of a second.
pub const WEIGHT: u32 = 1000000;

// Coordinates, in millimetres, run from the first to the second.
pub const LEAST_COORDINATE: i32 = -1000000;

pub const MOST_COORDINATE: i32 = 1000000;

// Modules are numbered from 1 to this.
pub const MODULES: u32 = 32;

// The longest text, in bytes.
pub const TEXT: usize = 65536;

// Why a call was refused: a case for each number of the paper, in its order, with the values that the paper also returns.
#[derive(Clone, Copy)]
pub enum Refusal {
    // 1: the text is over 65,536 bytes
    TextTooLong,
    // 2: a lent row is too short
    RowTooShort,
    // 3: an empty line
    EmptyLine { line: u32, column: u32 },
    // 4: data before `p`, or a second `p`
    OutOfOrder { line: u32 },
    // 5: n, m, a node number, a weight or a coordinate beyond its limits; line 0 outside a text
    BeyondLimits { line: u32 },
    // 6: counts disagree
    CountsDisagree { line: u32 },
    // 7: a node's second `v` line
    NodeAgain { line: u32 },
    // 8: an arc row holds a bad node or weight
    BadArc { arc: u32 },
    // 9: a bad coordinate in a row
    BadCoordinate { node: u32 },
    // 10: a box is not well shaped
    BadBox { arc: u32 },
    // 11: source, target or arc number not in the network
    NotInNetwork,
    // 12: no walk from source to target
    NoWalk { settled: u32 },
    // 13: a box or a mask misses a node of its arc's S(e)
    Misses { arc: u32, node: u32 },
    // 14: an arc's closure is a byte other than 0 or 1
    BadClosure { arc: u32 },
    // 15: a line's first field is no letter that its kind of file permits
    NoLetter { line: u32, column: u32 },
    // 16: a later field is misspelt
    Misspelt { line: u32, column: u32 },
    // 17: a field is missing, or there is one too many
    FieldCount { line: u32, column: u32 },
    // 18: a node's module is outside 1 to 32
    BadModule { node: u32 },
}

// Which of the lent signs a call goes by, to build, to check or to search with them: boxes, masks.
#[derive(Clone, Copy)]
pub struct Asked {
    pub boxes: bool,
    pub masks: bool,
}

impl Asked {
    // Boxes alone.
    pub const BOXES: Asked = Asked {
        boxes: true,
        masks: false,
    };
}

// The numbers that are lent with the rows: how many nodes and arcs there are.
#[derive(Clone, Copy)]
pub struct Sizes {
    pub n: u32,
    pub m: u32,
}

// What an update writes: an arc's new weight and its new closure.
#[derive(Clone, Copy)]
pub struct Change {
    pub arc: u32,
    pub weight: u32,
    pub closure: u8,
}

impl Refusal {
    // The paper's number of a refusal and its values.
    pub fn told(self) -> Told
        ensures { Tells result (refusal self) }
    {
        match self {
            Refusal::TextTooLong => tell(1, []),
            Refusal::RowTooShort => tell(2, []),
            Refusal::EmptyLine { line, column } => tell(3, [line, column]),
            Refusal::OutOfOrder { line } => tell(4, [line]),
            Refusal::BeyondLimits { line } => tell(5, [line]),
            Refusal::CountsDisagree { line } => tell(6, [line]),
            Refusal::NodeAgain { line } => tell(7, [line]),
            Refusal::BadArc { arc } => tell(8, [arc]),
            Refusal::BadCoordinate { node } => tell(9, [node]),
            Refusal::BadBox { arc } => tell(10, [arc]),
            Refusal::NotInNetwork => tell(11, []),
            Refusal::NoWalk { settled } => tell(12, [settled]),
            Refusal::Misses { arc, node } => tell(13, [arc, node]),
            Refusal::BadClosure { arc } => tell(14, [arc]),
            Refusal::NoLetter { line, column } => tell(15, [line, column]),
            Refusal::Misspelt { line, column } => tell(16, [line, column]),
            Refusal::FieldCount { line, column } => tell(17, [line, column]),
            Refusal::BadModule { node } => tell(18, [node]),
        }
    }

    pub fn number(self) -> u32
        ensures { result ≡ number_of self }
    {
        self.told().number
    }

    // Whether the values are a line and a column: 3, 15, 16 and 17.
    pub fn tells_column(self) -> bool
        ensures { result ≡ tells_column (number_of self) }
    {
        let number = self.number();
        (number == 3) | ((15 <= number) & (number <= 17))
    }

    // The first of a refusal's values, or 0 where it has none: what `boxes` prints as the place.
    pub fn place(self) -> u32
        ensures { result ≡ place_of self }
    {
        let told = self.told();
        told.values().first().copied().unwrap_or(0)
    }
}
