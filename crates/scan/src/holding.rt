// The numbers that a line of a format holds.
ghost use Rattle.std.specs.Prelude.{◌≡◌};
ghost use Rattle.scan.specs.Fields.{before};
ghost use Rattle.scan.specs.Held.{held, held_z};

// The numbers of a line in the order in which they stand on it: first, second and third are those without sign,
// x and y those that may have a minus; 0 where there are fewer.
// What is beyond 10,000,000 is held as 10,000,000: every limit of a format is far below.
#[derive(Clone, Copy, Default)]
pub struct Numbers {
    pub first: u32,
    pub second: u32,
    pub third: u32,
    pub x: i32,
    pub y: i32,
}

// What a field holds: a word of its form, or a number.
#[derive(Clone, Copy)]
pub enum Value {
    Word,
    Unsigned(u32),
    Signed(i32),
}

// A number as a line holds it.
#[tactic(auto, unfolding(crate::specs::Held::held))]
pub fn hold(v: u64) -> u32
    ensures { result ≡ held v }
{
    v.min(10_000_000) as u32
}

// A number that may have a minus, as a line holds it.
pub fn hold_signed(z: i64) -> i32
    ensures { result ≡ held_z z }
{
    z.clamp(-10_000_000, 10_000_000) as i32
}

// The value before the numbers of the fields after it.
#[tactic(auto, unfolding(crate::specs::Fields::before))]
pub fn put_before(value: Value, ns: Numbers) -> Numbers
    ensures { result ≡ before value ns }
{
    match value {
        Value::Word => ns,
        Value::Unsigned(v) => Numbers {
            first: v,
            second: ns.first,
            third: ns.second,
            ..ns
        },
        Value::Signed(z) => Numbers {
            x: z,
            y: ns.x,
            ..ns
        },
    }
}
