// The start of a pool, and how many instances the pool may have made.
#![tactic(auto)]

pub mod pools;
