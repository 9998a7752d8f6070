// The rows of the console: their names, and the table of them all.
ghost use Rattle.std.specs.Prelude.{◌≡◌};
ghost use Rattle.commands.specs.Rows.{stretch_from, stretch_of, Lies, name_of, is_called, row_of};

#[derive(Clone, Copy)]
pub enum Row {
    Tails,
    Heads,
    Weights,
    X,
    Y,
    Boxes,
    Route,
    Text,
    Closed,
    Answers,
}

// What a row holds. The rows of a kind stand in one store.
#[derive(Clone, Copy)]
pub enum Kind {
    Counts,
    Numbers,
    Bytes,
}

// The places of each kind's store, and how many rows there may be.
pub const COUNTS: usize = 32768;

pub const NUMBERS: usize = 40960;

pub const BYTES: usize = 49152;

pub const ROWS: usize = 16;

// Where a row stands: its number among the rows, and the places of its kind's store that are its own.
#[derive(Clone, Copy)]
pub struct Stretch {
    pub kind: Kind,
    pub number: usize,
    pub start: usize,
    pub places: usize,
}

fn stretch_from(kind: Kind, number: usize, start: usize, places: usize) -> Stretch
    ensures { result ≡ stretch_from kind number start places }
{
    Stretch {
        kind,
        number,
        start,
        places,
    }
}

// All rows, in the order of their numbers.
const ALL_ROWS: [Row; 10] = [
    Row::Tails,
    Row::Heads,
    Row::Weights,
    Row::X,
    Row::Y,
    Row::Boxes,
    Row::Route,
    Row::Text,
    Row::Closed,
    Row::Answers,
];

impl Row {
    // The table of the rows.
    pub fn stretch(self) -> Stretch
        ensures value { result ≡ stretch_of self }
        ensures lies { Lies result }
    {
        match self {
            Row::Tails => stretch_from(Kind::Counts, 0, 0, 4096),
            Row::Heads => stretch_from(Kind::Counts, 1, 4096, 4096),
            Row::Weights => stretch_from(Kind::Counts, 2, 8192, 4096),
            Row::X => stretch_from(Kind::Numbers, 3, 0, 1024),
            Row::Y => stretch_from(Kind::Numbers, 4, 1024, 1024),
            Row::Boxes => stretch_from(Kind::Numbers, 5, 2048, 16384),
            Row::Route => stretch_from(Kind::Counts, 6, 12288, 1024),
            Row::Text => stretch_from(Kind::Bytes, 7, 0, 40960),
            Row::Closed => stretch_from(Kind::Bytes, 8, 40960, 4096),
            Row::Answers => stretch_from(Kind::Counts, 9, 13312, 512),
        }
    }

    // The word that names it.
    #[tactic(auto, unfolding(crate::specs::Rows::name_of))]
    pub fn name(self) -> &'static [u8]
        ensures { result.now ≡ name_of self }
    {
        match self {
            Row::Tails => b"tails",
            Row::Heads => b"heads",
            Row::Weights => b"weights",
            Row::X => b"x",
            Row::Y => b"y",
            Row::Boxes => b"boxes",
            Row::Route => b"route",
            Row::Text => b"text",
            Row::Closed => b"closed",
            Row::Answers => b"answers",
        }
    }

    // Whether a word names it.
    #[tactic(auto, unfolding(crate::specs::Rows::is_called))]
    fn is_called(self, word: &[u8]) -> bool
        ensures { result ≡ is_called word.now self }
    {
        self.name() == word
    }
}

// The row that a word names.
pub fn row_of(word: &[u8]) -> Option<Row>
    ensures { result ≡ row_of word.now }
{
    ALL_ROWS.iter().copied().find(|row| row.is_called(word))
}
