// The spelling that the text formats share: pieces of a text, numbers, and the forms of a line.
#![tactic(auto)]

pub mod fields;
pub mod holding;
pub mod line;
pub mod numbers;
pub mod pieces;
