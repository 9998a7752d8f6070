// What a search keeps beside its labels: the keys of its open nodes in a tree, and the arcs of each node in chains.
#![tactic(auto)]

pub mod chain;
pub mod tree;
