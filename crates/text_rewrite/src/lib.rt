// What the endSnds of a table that was filled become, in its words.
#![tactic(auto)]

ghost use Rattle.std.specs.Prelude.{◌≡◌, ◌+◌, ◌≤◌, eqb};
ghost use Rattle.base_words.specs.All.{all};
ghost use Rattle.base_words.specs.Counts.{edges};
ghost use Rattle.base_words.specs.Seek.{seek};
ghost use Rattle.base_table.specs.Places.{element_place};
ghost use Rattle.base_table.specs.Table.{element_count, element_at};
ghost use Rattle.text_ends.specs.Rewriting.{is_end_snd, times_in, mentioned};
ghost use Rattle.text_rewrite.specs.InTable.{absent_in, unused_in, first_in, one_at, treated_with, treated_in, ends_in, pool_in, rewritten_in};

use base_kinds::moves::{END, INTER_SND};
use base_table::places::{
    ELEMENT_COUNT, ELEMENT_WORDS, ENTRIES, EXITS, FIRST_EDGE, FIRST_ELEMENT, FIRST_POOL, KIND,
    POOL_WORDS,
};
use base_table::{edge_at, element_at, element_count, pool_count};
use base_words::counts::{BRANCHES, EDGES};
use base_words::{Word, one_more, put};
use text_ends::is_end_snd;

// How often the edge e stands in a list of an element.
fn times_in(el: &[Word], list: Word, e: Word) -> usize
    ensures { (result ≡ times_in el.now list e) × (result ≤ 8) }
{
    (0..BRANCHES).filter(|&j| edge_at(el, list, j) == e).count()
}

fn is_absent(t: &[Word], p: Word, j: Word, e: Word) -> bool
    ensures { result ≡ eqb (mentioned e (element_at t.now p j)) 0 }
{
    let el = element_at(t, p, j);
    times_in(el, ENTRIES as Word, e) + times_in(el, EXITS as Word, e) == 0
}

// Whether no element of a pool mentions the edge e.
fn absent_in(t: &[Word], p: Word, e: Word) -> bool
    ensures { result ≡ absent_in t.now p e }
{
    (0..element_count(t, p)).all(|j| is_absent(t, p, j, e))
}

// How many edges stand below the lowest unused one.
fn used_below(t: &[Word], p: Word) -> Word
    ensures { (result ≡ seek (λ k. absent_in t.now p (k + 1)) edges) × (result ≤ edges) }
{
    for k in 0..EDGES {
        if absent_in(t, p, k + 1) {
            return k;
        }
    }
    EDGES
}

fn is_end(t: &[Word], p: Word, j: Word) -> bool
    ensures { result ≡ is_end_snd (element_at t.now p j) }
{
    is_end_snd(element_at(t, p, j))
}

// The place of the first endSnd of a pool.
fn first_in(t: &[Word], p: Word) -> Word
    ensures { result ≡ first_in t.now p }
{
    let n = element_count(t, p);
    (0..n).find(|&j| is_end(t, p, j)).unwrap_or(n)
}

// Element j of pool p is of a kind now, with the one edge f in a list.
fn put_one(t: &mut [Word], p: Word, j: Word, kind: Word, list: Word, f: Word)
    ensures { t.new ≡ one_at (element_place p j) kind list f t.old }
{
    let place = FIRST_POOL
        + POOL_WORDS * (p as usize)
        + FIRST_ELEMENT
        + ELEMENT_WORDS * (j as usize);
    put(t, place + KIND, kind);
    put(t, place + list as usize, 1);
    put(t, place + (list as usize + FIRST_EDGE), f);
}

// The endSnd at place j of pool p goes to the edge f, and its end stands at place n.
fn treat_with(t: &mut [Word], p: Word, j: Word, n: Word, f: Word)
    ensures { t.new ≡ treated_with p j n f t.old }
{
    put_one(t, p, j, INTER_SND, EXITS as Word, f);
    put_one(t, p, n, END, ENTRIES as Word, f);
    put(
        t,
        FIRST_POOL + POOL_WORDS * (p as usize) + ELEMENT_COUNT,
        one_more(n),
    );
}

// The first endSnd of a pool.
fn treat(t: &mut [Word], p: Word)
    ensures { t.new ≡ treated_in p t.old }
{
    let j = first_in(t, p);
    let n = element_count(t, p);
    let f = used_below(t, p) + 1;
    treat_with(t, p, j, n, f);
}

fn ends_in(t: &[Word], p: Word) -> usize
    ensures { result ≡ ends_in t.now p }
{
    (0..element_count(t, p))
        .filter(|&j| is_end(t, p, j))
        .count()
}

// The endSnds of a pool, in text order.
fn rewrite_pool(t: &mut [Word], p: Word)
    ensures { t.new ≡ pool_in p t.old }
{
    for _k in 0..ends_in(t, p) {
        treat(t, p);
    }
}

// The endSnds of every pool.
pub fn rewrite(t: &mut [Word])
    ensures { t.new ≡ rewritten_in t.old }
{
    for p in 0..pool_count(t) {
        rewrite_pool(t, p);
    }
}
