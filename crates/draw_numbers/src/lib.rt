// Who is who in a drawing, and the numbers that things have.
#![tactic(auto)]

pub mod numbers;
pub mod who;
