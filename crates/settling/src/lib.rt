// The search by labels: label arrays, the settling step, the run, and the route traced back.
#![tactic(auto)]

mod label;
mod relax;
pub mod run;
mod settle;
pub mod task;
pub mod trace;

// For each of 512 nodes: its length, its arc count and its settled mark. Length 4294967295 marks a node without a label.
#[derive(Clone, Copy)]
pub struct Labels {
    pub length: [u32; 512],
    pub arcs: [u32; 512],
    pub settled: [bool; 512],
}

// What a run ends with: the labels, how many nodes it settled (its target counted), and whether it found its target. Labels and count
// tell as much where it did not, so the answer is no Option.
#[derive(Drop)]
pub struct Outcome {
    pub labels: Labels,
    pub count: usize,
    pub found: bool,
}
