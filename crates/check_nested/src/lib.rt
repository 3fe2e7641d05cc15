// Whether the pools of a table are nested.
#![tactic(auto)]

ghost use Rattle.std.specs.Prelude.{◌≡◌, not, ◌∷◌, eqb};
ghost use Rattle.base_words.specs.All.{all};
ghost use Rattle.base_words.specs.Seek.{seek};
ghost use Rattle.base_words.specs.Words.{at};
ghost use Rattle.base_kinds.specs.Kinds.{end};
ghost use Rattle.base_table.specs.Table.{element_count, element_at, kind_in};
ghost use Rattle.check_tally.specs.Tally.{tally};
ghost use Rattle.check_nesting.specs.Nesting.{starts};
ghost use Rattle.check_nesting.specs.Deciding.{first_of, whole_walk, last_of, meets_all, ends_at, is_nested, unnested};
ghost use Rattle.check_nesting.specs.Offending.{stray_of, offending_by, offending};

use base_kinds::moves::END;
use base_table::{element_at, element_count, kind_in, pool_count};
use base_words::counts::ELEMENTS;
use base_words::{Word, word};
use blocks::{mark_one, starts, taker};
use walks::{exit_at, mark_way, stop_of};

pub mod blocks;
pub mod walks;

fn starts_at(t: &[Word], p: Word, k: Word) -> bool
    ensures { result ≡ starts (element_at t.now p k) }
{
    starts(element_at(t, p, k))
}

fn first_of(t: &[Word], p: Word) -> Word
    ensures { result ≡ first_of (element_at t.now p) (element_count t.now p) }
{
    let n = element_count(t, p);
    (0..n).find(|&k| starts_at(t, p, k)).unwrap_or(n)
}

// Whether the first n words are all 1.
fn all_once(m: &[Word], n: Word) -> bool
    ensures { result ≡ all (λ k. eqb (at m.now k) 1) n }
{
    (0..n).all(|k| word(m, k as usize) == 1)
}

// Marks the elements that are met on the way from the element `first` to the element `last`.
fn mark_met(t: &[Word], p: Word, first: Word, last: Word, m: &mut [Word])
    ensures { m.new ≡ tally m.old (first ∷ last ∷ (whole_walk (element_at t.now p) (element_count t.now p) first).on) }
{
    mark_one(m, first);
    mark_one(m, last);
    mark_way(t, p, ELEMENTS, exit_at(t, p, first, 0), m);
}

// Whether every element of a pool is met once, on the way from its element `first` to its element `last`.
fn meets_all(t: &[Word], p: Word, first: Word, last: Word) -> bool
    ensures { result ≡ meets_all (element_at t.now p) (element_count t.now p) first last }
{
    let mut m = [0; ELEMENTS as usize];
    mark_met(t, p, first, last, &mut m);
    all_once(&m, element_count(t, p))
}

fn is_end(t: &[Word], p: Word, k: Word) -> bool
    ensures { result ≡ eqb (kind_in (element_at t.now p k)) end }
{
    kind_in(element_at(t, p, k)) == END
}

// The element that takes from the edge where the walk from the element `first` stops.
#[tactic(auto, unfolding(check_nesting::specs::Deciding::last_of, check_nesting::specs::Deciding::whole_walk))]
fn last_of(t: &[Word], p: Word, first: Word) -> Word
    ensures { result ≡ last_of (element_at t.now p) (element_count t.now p) first }
{
    taker(t, p, stop_of(t, p, ELEMENTS, exit_at(t, p, first, 0)))
}

// Whether the walk from the element `first` ends well at the element `last`.
#[tactic(auto, unfolding(check_nesting::specs::Deciding::ends_at))]
fn ends_at(t: &[Word], p: Word, first: Word, last: Word) -> bool
    ensures { result ≡ ends_at (element_at t.now p) (element_count t.now p) first last }
{
    last < element_count(t, p) && is_end(t, p, last) && meets_all(t, p, first, last)
}

// Whether pool p of a table is nested.
#[tactic(auto, unfolding(check_nesting::specs::Deciding::is_nested))]
pub fn is_nested(t: &[Word], p: Word) -> bool
    ensures { result ≡ is_nested (element_at t.now p) (element_count t.now p) }
{
    let first = first_of(t, p);
    first < element_count(t, p) && ends_at(t, p, first, last_of(t, p, first))
}

// The place of the first pool that is not nested; the pool count where there is none.
pub fn first_unnested(t: &[Word]) -> Word
    ensures { result ≡ unnested t.now }
{
    let n = pool_count(t);
    (0..n).find(|&p| !is_nested(t, p)).unwrap_or(n)
}

// The first of n words that is not 1; n where all are.
fn first_other(m: &[Word], n: Word) -> Word
    ensures { result ≡ seek (λ k. not (eqb (at m.now k) 1)) n }
{
    (0..n).find(|&k| word(m, k as usize) != 1).unwrap_or(n)
}

// The first element of a pool that is not met once, on the way from its element `first` to its element `last`.
fn stray_of(t: &[Word], p: Word, first: Word, last: Word) -> Word
    ensures { result ≡ stray_of (element_at t.now p) (element_count t.now p) first last }
{
    let mut m = [0; ELEMENTS as usize];
    mark_met(t, p, first, last, &mut m);
    first_other(&m, element_count(t, p))
}

#[tactic(auto, using(base_words::proofs::PickLaws::picks), unfolding(check_nesting::specs::Offending::offending_by))]
fn offending_by(t: &[Word], p: Word, first: Word, last: Word) -> Word
    ensures { result ≡ offending_by (element_at t.now p) (element_count t.now p) first last }
{
    if is_end(t, p, last) {
        stray_of(t, p, first, last)
    } else {
        last
    }
}

// The element of pool p where it is not nested: 0 where it has no start, the count of its elements where it is nested.
#[tactic(auto, using(base_words::proofs::PickLaws::picks), unfolding(check_nesting::specs::Offending::offending))]
pub fn offending(t: &[Word], p: Word) -> Word
    ensures { result ≡ offending (element_at t.now p) (element_count t.now p) }
{
    let first = first_of(t, p);
    if first < element_count(t, p) {
        offending_by(t, p, first, last_of(t, p, first))
    } else {
        0
    }
}
