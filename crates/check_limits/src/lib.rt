// Words that are within limits, or 0.
#![tactic(auto)]

pub mod zeros;
