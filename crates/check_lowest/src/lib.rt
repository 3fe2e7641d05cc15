// The lowest model check that a table breaks.
#![tactic(auto)]

ghost use Rattle.std.specs.Prelude.{◌≡◌};
ghost use Rattle.base_words.specs.Each.{tab};
ghost use Rattle.base_words.specs.Words.{at};
ghost use Rattle.base_table.specs.Places.{pool_place, limit_place};
ghost use Rattle.base_table.specs.Table.{element_at};
ghost use Rattle.check_tally.specs.Tally.{tally, marks_of, all_marks};
ghost use Rattle.check_summary.specs.Summary.{regions};
ghost use Rattle.check_model.specs.Checks.{lowest};
ghost use Rattle.check_lowest.specs.Model.{pool_at, model_of};
ghost use Rattle.check_verdict.specs.Verdict.{pool_regions};

use base_table::places::{FIRST_POOL, LIMIT, POOL_WORDS};
use base_table::{element_at, element_count, pool_count};
use base_words::{Word, word};
use check_summary::{SUMMARY_WORDS, mark_element};
use check_verdict::{MODEL_WORDS, lowest_in, mark_pool};

// The number of pool p.
pub fn number_at(t: &[Word], p: Word) -> Word
    ensures { result ≡ at t.now (pool_place p) }
{
    word(t, FIRST_POOL + POOL_WORDS * (p as usize))
}

fn limit_at(t: &[Word], p: Word) -> Word
    ensures { result ≡ at t.now (limit_place p) }
{
    word(t, FIRST_POOL + POOL_WORDS * (p as usize) + LIMIT)
}

fn mark_at(s: &mut [Word], t: &[Word], p: Word, e: Word)
    ensures { s.new ≡ tally s.old (marks_of (regions (element_at t.now p e))) }
{
    mark_element(s, element_at(t, p, e));
}

// The first n elements of a table's pool.
fn mark_elements(s: &mut [Word], t: &[Word], p: Word, n: Word)
    ensures { s.new ≡ tally s.old (all_marks regions (tab (element_at t.now p) n)) }
{
    for e in 0..n {
        mark_at(s, t, p, e);
    }
}

fn mark_pool_at(m: &mut [Word], t: &[Word], p: Word)
    ensures { m.new ≡ tally m.old (marks_of (pool_regions (pool_at t.now p))) }
{
    let mut s = [0; SUMMARY_WORDS];
    mark_elements(&mut s, t, p, element_count(t, p));
    mark_pool(m, number_at(t, p), limit_at(t, p), &s);
}

// The first n pools of a table.
fn mark_pools(m: &mut [Word], t: &[Word], n: Word)
    ensures { m.new ≡ tally m.old (all_marks pool_regions (tab (pool_at t.now) n)) }
{
    for p in 0..n {
        mark_pool_at(m, t, p);
    }
}

// The lowest check that the model of a table breaks; 0 where it keeps all.
pub fn lowest_broken(t: &[Word]) -> Word
    ensures { result ≡ lowest (model_of t.now) }
{
    let mut m = [0; MODEL_WORDS];
    mark_pools(&mut m, t, pool_count(t));
    lowest_in(&m)
}
