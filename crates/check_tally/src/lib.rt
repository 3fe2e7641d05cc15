// A tally of marks: each word is 0, 1 or 2 (many).
#![tactic(auto)]

ghost use Rattle.std.specs.Prelude.{◌≡◌, ℕ, ◌<◌};
ghost use Rattle.check_tally.specs.Tally.{more, marked, place, once_in, tally, Region, region_marks};

use base_words::{Word, put, word};

const SEVERAL: Word = 2;

#[tactic(auto, using(base_words::proofs::PickLaws::picks), unfolding(crate::specs::Tally::more))]
fn more(x: Word) -> Word
    ensures { result ≡ more x }
{
    if x < SEVERAL { x + 1 } else { x }
}

#[tactic(auto, using(base_words::proofs::PickLaws::picks), unfolding(crate::specs::Tally::place))]
fn place(from: Word, most: Word, v: usize) -> usize
    ensures { result ≡ place from most v }
{
    from as usize + if v <= most as usize { v } else { 0 }
}

#[tactic(auto, unfolding(crate::specs::Tally::marked))]
fn mark_place(s: &mut [Word], k: usize)
    ensures { s.new ≡ marked s.old k }
{
    let x = more(word(s, k));
    put(s, k, x);
}

// One mark more for the number v of a region.
pub fn mark(s: &mut [Word], from: Word, most: Word, v: usize)
    ensures { s.new ≡ marked s.old (place from most v) }
{
    mark_place(s, place(from, most, v));
}

// Marks n numbers of a region: for each j below n what the closure gives for it.
pub fn mark_region<F: Fn(Word) -> usize>(s: &mut [Word], from: Word, most: Word, n: Word, number: F)
    requires { (j : ℕ) → j < n → F.pre number j }
    ensures { (g : ℕ → ℕ) → ((j r : ℕ) → j < n → F.post number j r → r ≡ g j) → s.new ≡ tally s.old (region_marks (record { from = from; most = most; number = g; many = n })) }
{
    for j in 0..n {
        mark(s, from, most, number(j));
    }
}

// Whether no number of a region was marked twice.
pub fn once_in(s: &[Word], from: Word, most: Word) -> bool
    ensures { result ≡ once_in s.now from most }
{
    (0..most).all(|k| word(s, from as usize + (k as usize + 1)) <= 1)
}
