// What the console replies: the line of each reply, put on a page.
#![tactic(auto)]

pub mod answers;
pub mod showing;
pub mod why;
pub mod words;
