// A network that was judged.
ghost use Rattle.walks.specs.Rows.{rows, Sound};

// Rows that hold a network of n nodes and m arcs, within the limits.
#[derive(Clone, Copy)]
pub struct Tracks<'a> {
    pub n: usize,
    pub m: usize,
    pub tails: &'a [u32],
    pub heads: &'a [u32],
    pub weights: &'a [u32],
    pub closures: &'a [u8],
    ghost sound: { Sound n m (rows tails.now heads.now weights.now closures.now) },
}
