// The arcs of each node in a chain.
ghost use Rattle.std.specs.Prelude.{◌≡◌};
ghost use Rattle.frontier.specs.Chain.{Ends, Chained};

// `first` tells the place of each node's first arc, and `next` for each arc the place of the next of the same node. The place after
// the last arc ends each chain.
#[derive(Drop)]
pub struct Chain {
    pub first: [u32; 512],
    pub next: [u32; 2048],
}

impl Chain {
    // The arcs 1..m chained by one of their ends, linked from the last to the first.
    pub fn link(m: usize, ends: &[u32]) -> Chain
        requires { Ends m ends.now }
        ensures { Chained m ends.now result.first result.next }
    {
        let mut chain = Chain {
            first: [m as u32; 512],
            next: [0; 2048],
        };
        for j in (0..m).rev() {
            let at = ends[j] as usize - 1;
            chain.next[j] = chain.first[at];
            chain.first[at] = j as u32;
        }
        chain
    }
}
