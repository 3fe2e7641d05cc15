// The lowest model check broken, by the summaries of the pools of a model, one after the other.
#![tactic(auto)]

ghost use Rattle.std.specs.Prelude.{◌≡◌};
ghost use Rattle.base_words.specs.Counts.{names};
ghost use Rattle.check_tally.specs.Tally.{marked, place, tally, region_marks, marks_of};
ghost use Rattle.check_model.specs.Checks.{checks};
ghost use Rattle.check_verdict.specs.Verdict.{names_from, broken_from, name_if, names_region, broken_if, broken_region, summary_regions, numbers_differ_in, kept_in, names_apart_in, lowest_in};

use base_words::counts::{NAMES, POOL_NUMBERS};
use base_words::{Word, wide, word};
use check_answers::{keeps, receives};
use check_model::{
    BINDS_DIFFER, CHECKS, EDGES_MEET, NAMES_APART, NUMBERS_DIFFER, ONE_DEFAULT, ONE_START,
    START_RECEIVES, TASKS_DIFFER,
};
use check_tally::{mark, mark_region, once_in};

// Where the regions of a model's tally start.
pub const NUMBERS_FROM: Word = 0;

pub const NAMES_FROM: Word = NUMBERS_FROM + 1 + POOL_NUMBERS;

pub const BROKEN_FROM: Word = NAMES_FROM + 1 + NAMES;

pub const MODEL_WORDS: usize = BROKEN_FROM as usize + 1 + CHECKS as usize;

#[tactic(auto, using(base_words::proofs::PickLaws::picks), unfolding(crate::specs::Verdict::name_if))]
fn name_if(s: &[Word], m: Word) -> usize
    ensures { result ≡ name_if s.now m }
{
    if receives(s, m) { m as usize + 1 } else { 0 }
}

// The names that a pool receives.
#[tactic(auto, unfolding(crate::specs::Verdict::names_region))]
fn mark_names(t: &mut [Word], s: &[Word])
    ensures { t.new ≡ tally t.old (region_marks (names_region s.now)) }
{
    mark_region(t, NAMES_FROM, NAMES, NAMES, |m| name_if(s, m));
}

#[tactic(auto, using(base_words::proofs::PickLaws::picks), unfolding(crate::specs::Verdict::broken_if))]
fn broken_if(limit: Word, s: &[Word], k: Word) -> Word
    ensures { result ≡ broken_if limit s.now k }
{
    if keeps(limit, s, k) { 0 } else { k }
}

// The checks that a pool breaks by itself.
#[tactic(auto, unfolding(crate::specs::Verdict::broken_region))]
fn mark_checks(t: &mut [Word], limit: Word, s: &[Word])
    ensures { t.new ≡ tally t.old (region_marks (broken_region limit s.now)) }
{
    mark_region(
        t,
        BROKEN_FROM,
        CHECKS,
        CHECKS,
        |k| wide(broken_if(limit, s, k + 1)),
    );
}

// One pool more in the tally of its model, by the pool's summary.
pub fn mark_pool(t: &mut [Word], number: Word, limit: Word, s: &[Word])
    ensures { t.new ≡ tally t.old (marks_of (summary_regions number limit s.now)) }
{
    mark(t, NUMBERS_FROM, POOL_NUMBERS, wide(number));
    mark_names(t, s);
    mark_checks(t, limit, s);
}

#[tactic(auto, unfolding(crate::specs::Verdict::numbers_differ_in))]
fn numbers_differ(t: &[Word]) -> bool
    ensures { result ≡ numbers_differ_in t.now }
{
    once_in(t, NUMBERS_FROM, POOL_NUMBERS)
}

#[tactic(auto, unfolding(crate::specs::Verdict::kept_in))]
fn kept(t: &[Word], k: Word) -> bool
    ensures { result ≡ kept_in t.now k }
{
    word(t, BROKEN_FROM as usize + k as usize) == 0
}

#[tactic(auto, unfolding(crate::specs::Verdict::names_apart_in))]
fn names_apart(t: &[Word]) -> bool
    ensures { result ≡ names_apart_in t.now }
{
    once_in(t, NAMES_FROM, NAMES) && kept(t, NAMES_APART)
}

// The lowest check that a model breaks, by its tally; 0 where it keeps all.
#[tactic(auto, using(base_words::proofs::PickLaws::picks), unfolding(crate::specs::Verdict::lowest_in))]
pub fn lowest_in(t: &[Word]) -> Word
    ensures { result ≡ lowest_in t.now }
{
    if !numbers_differ(t) {
        return NUMBERS_DIFFER;
    }
    if !kept(t, ONE_START) {
        return ONE_START;
    }
    if !kept(t, START_RECEIVES) {
        return START_RECEIVES;
    }
    if !kept(t, EDGES_MEET) {
        return EDGES_MEET;
    }
    if !kept(t, TASKS_DIFFER) {
        return TASKS_DIFFER;
    }
    if !names_apart(t) {
        return NAMES_APART;
    }
    if !kept(t, ONE_DEFAULT) {
        return ONE_DEFAULT;
    }
    if !kept(t, BINDS_DIFFER) {
        return BINDS_DIFFER;
    }
    0
}
