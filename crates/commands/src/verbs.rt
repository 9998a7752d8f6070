// The names of commands.
ghost use Rattle.std.specs.Prelude.{◌≡◌};
ghost use Rattle.commands.specs.Verbs.{name_of, is_called, verb_of, takes_words};

// What is read from a file: a graph, the places of its nodes, a day's list.
#[derive(Clone, Copy)]
pub enum Reading {
    Gr,
    Co,
    P2p,
}

// The kinds of files that are written.
#[derive(Clone, Copy)]
pub enum Format {
    Gr,
    Co,
}

// The commands by their names.
#[derive(Clone, Copy)]
pub enum Verb {
    N,
    M,
    Lend,
    Show,
    Read(Reading),
    Build,
    Check,
    Update,
    Search,
    Boxed,
    Why,
    Write(Format),
    Save(Format),
    Fresh,
    Help,
}

// All commands.
const VERBS: [Verb; 19] = [
    Verb::N,
    Verb::M,
    Verb::Lend,
    Verb::Show,
    Verb::Read(Reading::Gr),
    Verb::Read(Reading::Co),
    Verb::Read(Reading::P2p),
    Verb::Build,
    Verb::Check,
    Verb::Update,
    Verb::Search,
    Verb::Boxed,
    Verb::Why,
    Verb::Write(Format::Gr),
    Verb::Write(Format::Co),
    Verb::Save(Format::Gr),
    Verb::Save(Format::Co),
    Verb::Fresh,
    Verb::Help,
];

impl Verb {
    // The first word of a line with this command.
    #[tactic(auto, unfolding(crate::specs::Verbs::name_of))]
    fn name(self) -> &'static [u8]
        ensures { result.now ≡ name_of self }
    {
        match self {
            Verb::N => b"n",
            Verb::M => b"m",
            Verb::Lend => b"lend",
            Verb::Show => b"show",
            Verb::Read(Reading::Gr) => b"gr",
            Verb::Read(Reading::Co) => b"co",
            Verb::Read(Reading::P2p) => b"p2p",
            Verb::Build => b"build",
            Verb::Check => b"check",
            Verb::Update => b"update",
            Verb::Search => b"search",
            Verb::Boxed => b"boxed",
            Verb::Why => b"why",
            Verb::Write(_) => b"write",
            Verb::Save(_) => b"save",
            Verb::Fresh => b"fresh",
            Verb::Help => b"help",
        }
    }

    // Whether a line's first two words name it. Of `write` and `save` the kind of file is a part of the name.
    #[tactic(auto, unfolding(crate::specs::Verbs::is_called))]
    fn is_called(self, first: &[u8], second: &[u8]) -> bool
        ensures { result ≡ is_called first.now second.now self }
    {
        if self.name() != first {
            return false;
        }
        match self {
            Verb::Write(Format::Gr) | Verb::Save(Format::Gr) => second == b"gr".as_slice(),
            Verb::Write(Format::Co) | Verb::Save(Format::Co) => second == b"co".as_slice(),
            _ => true,
        }
    }
}

// The command that a line's first two words name.
pub fn verb_of(first: &[u8], second: &[u8]) -> Option<Verb>
    ensures { result ≡ verb_of first.now second.now }
{
    VERBS
        .iter()
        .copied()
        .find(|verb| verb.is_called(first, second))
}

// Whether a line with this command may have so many words, the command included.
pub fn takes(verb: Verb, words: usize) -> bool
    ensures { result ≡ takes_words verb words }
{
    match verb {
        Verb::Build | Verb::Check | Verb::Fresh | Verb::Help => words == 1,
        Verb::N | Verb::M | Verb::Read(_) | Verb::Write(_) => words == 2,
        Verb::Search | Verb::Boxed | Verb::Save(_) => words == 3,
        Verb::Update | Verb::Why => words == 4,
        Verb::Show => words == 2 || words == 3,
        Verb::Lend => 2 <= words,
    }
}
