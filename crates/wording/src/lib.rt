// Refusals as the programs print them.
#![tactic(auto)]

ghost use Rattle.std.specs.Prelude.{◌+◌, ◌≤◌, ◌≡◌, length};
ghost use Rattle.pages.specs.Page.{Puts};
ghost use Rattle.pages.specs.Spaced.{counts_text};
ghost use Rattle.wording.specs.Refusals.{printed_values, place_text, values_text, pattern_of, part, after_mark, second_of, words_text, refusal_line, no_file_line};

use pages::{PAGE, Page};
use rules::Refusal;
use scan::pieces::{after_first, first_at};

// The refusal's values, each after a space.
#[tactic(auto, unfolding(crate::specs::Refusals::values_text))]
fn put_values(page: &mut Page<PAGE>, why: Refusal)
    requires { length page.old + 33 ≤ PAGE }
    ensures puts { Puts (values_text why) page.old page.new }
    ensures upper_bound { length page.new ≤ length page.old + 33 }
{
    page.put_row(why.told().values());
}

// What a program prints of the values: line and column of 3, 15, 16 and 17, else the place, or 0.
#[tactic(auto, unfolding(crate::specs::Refusals::values_text))]
fn put_printed(page: &mut Page<PAGE>, why: Refusal)
    requires { length page.old + 33 ≤ PAGE }
    ensures puts { Puts (counts_text (printed_values why)) page.old page.new }
    ensures upper_bound { length page.new ≤ length page.old + 33 }
{
    if why.tells_column() {
        put_values(page, why);
    } else {
        page.put_row(&[why.place()]);
    }
}

// `refused`, the paper's number, and the place, with its column where there is one: what a program prints.
#[tactic(auto, unfolding(crate::specs::Refusals::place_text, scan::specs::Ascii::bytes))]
pub fn put_place(page: &mut Page<PAGE>, why: Refusal)
    requires { length page.old + 51 ≤ PAGE }
    ensures puts { Puts (place_text why) page.old page.new }
    ensures upper_bound { length page.new ≤ length page.old + 51 }
{
    page.put_after(b"refused ", why.number());
    put_printed(page, why);
}

// The words that a refusal is told by; `#` stands for a value. Line 0 of 5 is outside a text.
#[tactic(auto, unfolding(crate::specs::Refusals::line_of, scan::specs::Ascii::bytes))]
fn pattern_of(why: Refusal) -> &'static [u8]
    ensures pattern { result.now ≡ pattern_of why }
    ensures few { length result.now ≤ 60 }
{
    match why {
        Refusal::TextTooLong => b"the text is over 65536 bytes",
        Refusal::RowTooShort => b"a lent row is too short",
        Refusal::EmptyLine { .. } => b"line # is empty",
        Refusal::OutOfOrder { .. } => b"line # is data before the p line or a second p line",
        Refusal::BeyondLimits { line: 0 } => b"n, m or the new weight is beyond its limits",
        Refusal::BeyondLimits { .. } => b"a number in line # is beyond its limits",
        Refusal::CountsDisagree { .. } => b"the counts disagree at line #",
        Refusal::NodeAgain { .. } => b"line # places a node a second time",
        Refusal::BadArc { .. } => b"arc # has a bad node or weight",
        Refusal::BadCoordinate { .. } => b"node # has a bad coordinate",
        Refusal::BadBox { .. } => b"the box of arc # is not well shaped",
        Refusal::NotInNetwork => b"the source, target or arc is not in the network",
        Refusal::NoWalk { .. } => b"no walk leads from the source to the target, settled #",
        Refusal::Misses { .. } => b"the box of arc # misses node #",
        Refusal::BadClosure { .. } => b"the closure of arc # is neither 0 nor 1",
        Refusal::NoLetter { .. } => b"line #, column #: no line of this kind of file begins so",
        Refusal::Misspelt { .. } => b"line #, column #: the field is misspelt",
        Refusal::FieldCount { .. } => b"line #, column #: a field is missing or one too many",
        Refusal::BadModule { .. } => b"the module of node # is outside 1 to 32",
    }
}

// Puts a pattern up to its first mark, with a value in the mark's place.
#[tactic(auto, unfolding(crate::specs::Refusals::part))]
fn put_part(page: &mut Page<PAGE>, pattern: &[u8], value: u32)
    requires { length page.old + length pattern.now + 10 ≤ PAGE }
    ensures puts { Puts (part value pattern.now) page.old page.new }
    ensures pattern_bound { length page.new + length (after_mark pattern.now) ≤ length page.old + length pattern.now + 10 }
{
    let mark = first_at(pattern, b'#');
    if mark < pattern.len() {
        page.put_after(&pattern[..mark], value);
    } else {
        page.put(pattern);
    }
}

// The refusal's second value, or 0 where there is none.
fn second_value(why: Refusal) -> u32
    ensures { result ≡ second_of why }
{
    let told = why.told();
    told.values().get(1).copied().unwrap_or(0)
}

// The refusal in words.
fn put_words(page: &mut Page<PAGE>, why: Refusal)
    requires { length page.old + 1000 ≤ PAGE }
    ensures puts { Puts (words_text why) page.old page.new }
    ensures upper_bound { length page.new ≤ length page.old + 100 }
{
    let pattern = pattern_of(why);
    let later = after_first(pattern, b'#');
    let first = why.place();
    let second = second_value(why);
    put_part(page, pattern, first);
    put_part(page, later, second);
    page.put(after_first(later, b'#'));
}

// `refused`, the paper's number, all the values, and the words in brackets: a reply of the console.
#[tactic(auto, unfolding(crate::specs::Refusals::refusal_line, scan::specs::Ascii::bytes))]
pub fn put_refusal(page: &mut Page<PAGE>, why: Refusal)
    ensures text { page.new ≡ refusal_line why }
    ensures few { length page.new ≤ 1000 }
{
    page.start(b"refused ");
    page.put_number(why.number());
    put_values(page, why);
    page.put(b" (");
    put_words(page, why);
    page.put(b")\n");
}

// The reply where a file cannot be read.
#[tactic(auto, unfolding(crate::specs::Refusals::no_file_line, scan::specs::Ascii::bytes))]
pub fn put_no_file(page: &mut Page<PAGE>)
    ensures text { page.new ≡ no_file_line }
    ensures few { length page.new ≤ 1000 }
{
    page.start(b"refused 0 0 (the file cannot be read)\n");
}
