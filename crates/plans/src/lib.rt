// Plans as texts, on the lent rows: `gr` and `co` read them, `write` and `save` write them.
#![tactic(auto)]

pub mod reading;
pub mod written;
