// What the console does with rows: the calls on a network, and the files that are read into it.
#![tactic(auto)]

pub mod network;
pub mod texts;
pub mod written;
