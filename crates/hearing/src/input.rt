// What was read of the input and is ahead.
ghost use Rattle.std.specs.Prelude.{◌≤◌};

// The chunk that was read last: where the next byte stands in it, and where it ends.
#[derive(Clone, Copy)]
pub struct Input {
    pub chunk: [u8; 4096],
    pub at: usize,
    pub end: usize,
    ghost at_bound: { at ≤ end },
    ghost end_bound: { end ≤ 4096 },
}
