// What is drawn: its things, and the names by which they are told.
#![tactic(auto)]

pub mod names;
pub mod things;
