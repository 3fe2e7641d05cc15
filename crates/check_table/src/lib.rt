// Whether a table is within the limits, with 0 in every place that is not in use.
#![tactic(auto)]

ghost use Rattle.std.specs.Prelude.{◌≡◌, ◌+◌, ◌-◌, ◌*◌, ◌≤◌, ◌<◌, drop, length};
ghost use Rattle.base_words.specs.All.{all};
ghost use Rattle.base_words.specs.Counts.{pools, elements};
ghost use Rattle.base_table.specs.Places.{element_words, pool_words, pool_place, table_words};
ghost use Rattle.base_table.specs.Table.{pool_count, element_count, element_at};
ghost use Rattle.check_limits.specs.Limits.{zeros, things, held_fits, pool_fits, table_fits};

use base_kinds::moves::END_SND;
use base_table::places::{
    ELEMENT_COUNT, ELEMENT_WORDS, FIRST_POOL, LIMIT, POOL_COUNT, POOL_WORDS, TABLE_WORDS,
};
use base_table::{element_at, element_count, kind_in, pool_count};
use base_words::counts::{ELEMENTS, INSTANCES, POOL_NUMBERS, POOLS};
use base_words::{Word, tail, word};
use check_limits::zeros::{is_within, less, zero_words};

pub mod elements;
pub mod parts;
mod things;

use elements::element_fits;
use things::things_fit;

// An element of a table is no endSnd.
#[tactic(auto, unfolding(check_limits::specs::Limits::held_fits))]
fn held_fits(el: &[Word]) -> bool
    requires { element_words ≤ length el.now }
    ensures { result ≡ held_fits el.now }
{
    element_fits(el) && kind_in(el) != END_SND
}

// The elements of a pool.
fn elements_fit(t: &[Word], p: Word) -> bool
    requires { (element_count t.now p ≤ elements) × (p < pools) × (table_words ≤ length t.now) }
    ensures { result ≡ things (element_at t.now p 0) element_words elements (element_count t.now p) held_fits }
{
    things_fit(
        element_at(t, p, 0),
        ELEMENT_WORDS as Word,
        ELEMENTS,
        element_count(t, p),
        held_fits,
    )
}

#[tactic(auto, unfolding(check_limits::specs::Limits::pool_fits))]
fn pool_fits(t: &[Word], p: Word) -> bool
    requires { (p < pools) × (table_words ≤ length t.now) }
    ensures { result ≡ pool_fits t.now p }
{
    let place = FIRST_POOL + POOL_WORDS * (p as usize);
    is_within(t, place, 1, POOL_NUMBERS)
        && word(t, place + LIMIT) <= INSTANCES
        && is_within(t, place + ELEMENT_COUNT, 1, ELEMENTS)
        && elements_fit(t, p)
}

fn pools_below(t: &[Word], n: Word) -> bool
    requires { (n ≤ pools) × (table_words ≤ length t.now) }
    ensures { result ≡ all (pool_fits t.now) n }
{
    (0..n).all(|p| pool_fits(t, p))
}

// The words behind the pools of a table.
fn rest_zero(t: &[Word]) -> bool
    ensures { result ≡ zeros (drop (pool_place (pool_count t.now)) t.now) (pool_words * (pools - pool_count t.now)) }
{
    let n = pool_count(t);
    let rest = less(POOLS, n as usize);
    zero_words(
        tail(t, FIRST_POOL + POOL_WORDS * (n as usize)),
        POOL_WORDS * (rest as usize),
    )
}

// Whether a table is within the limits.
#[tactic(auto, unfolding(check_limits::specs::Limits::table_fits))]
pub fn table_fits(t: &[Word; TABLE_WORDS]) -> bool
    ensures { result ≡ table_fits t.now }
{
    is_within(t, POOL_COUNT, 1, POOLS) && pools_below(t, pool_count(t)) && rest_zero(t)
}
