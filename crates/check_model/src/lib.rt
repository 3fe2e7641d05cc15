// The model checks: their numbers, and check 4 of one edge.
#![tactic(auto)]

ghost use Rattle.std.specs.Prelude.{◌≡◌};
ghost use Rattle.check_model.specs.Checks.{edge_right};

use base_words::Word;

// Numbers and no enum: the contracts of `keeps`, `lowest_in` and `lowest_broken` say them, and the calls for C give them back.
pub const NUMBERS_DIFFER: Word = 1;

pub const ONE_START: Word = 2;

pub const START_RECEIVES: Word = 3;

pub const EDGES_MEET: Word = 4;

pub const TASKS_DIFFER: Word = 5;

pub const NAMES_APART: Word = 6;

pub const ONE_DEFAULT: Word = 7;

pub const BINDS_DIFFER: Word = 8;

pub const CHECKS: Word = BINDS_DIFFER;

// Whether an edge that stands x times as an exit, n times as an entry and f times as the first edge of a `start` keeps check 4.
#[tactic(auto, using(base_words::proofs::PickLaws::picks), unfolding(crate::specs::Checks::edge_right))]
pub fn edge_right(x: Word, n: Word, f: Word) -> bool
    ensures { result ≡ edge_right x n f }
{
    x as usize + n as usize == 0 || n == 1 && x == if f == 0 { 1 } else { 0 }
}
