// Boxes and masks drawn over sound rows. For each node t the arcs whose S(e) has t are marked; then the boxes and masks of the
// marked arcs take in t's place and its module, or are asked whether they pass it.
#![tactic(auto)]

pub mod compare;
pub mod gather;
mod mark;
