// Labels at the start, and a label offered to a node.
ghost use Rattle.std.specs.Prelude.{◌≡◌, ◌<◌, ◌≤◌, get_or};
ghost use Rattle.settling.specs.Labels.{before, start_of, offered};
ghost use Rattle.settling.specs.Front.{Front, Offer, Become};

use crate::Labels;
use frontier::tree::{key, lower};

impl Labels {
    // The labels at the start of a search from `s`: it alone is labelled, and nothing is settled.
    #[tactic(auto, unfolding(crate::specs::Labels::start_of))]
    pub fn start(s: usize) -> Labels
        requires { (1 ≤ s) × (s ≤ 512) }
        ensures { result ≡ start_of s }
    {
        let mut labels = Labels {
            length: [u32::MAX; 512],
            arcs: [0; 512],
            settled: [false; 512],
        };
        labels.length[s - 1] = 0;
        labels
    }

    // Whether the label (l, k) comes before that of the node at place `at`: lengths first, and then arc counts.
    #[tactic(auto, unfolding(crate::specs::Labels::before))]
    fn yields(&self, at: usize, l: u32, k: u32) -> bool
        requires { at < 512 }
        ensures { result ≡ before l k (get_or self.now.length at 0) (get_or self.now.arcs at 0) }
    {
        let own = self.length[at];
        l < own || (l == own && k < self.arcs[at])
    }

    // Node `v` is offered the label (l, k), and takes it if that comes before its own.
    pub fn offer(&mut self, tree: &mut [u64; 1024], v: usize, l: u32, k: u32)
        requires { Offer v l k × Front self.old tree.old }
        ensures { Become (offered self.old v l k) self.new tree.new }
    {
        let at = v - 1;
        if self.yields(at, l, k) {
            self.length[at] = l;
            self.arcs[at] = k;
            if !self.settled[at] {
                lower(tree, at, key(l, k, at));
            }
        }
    }
}
