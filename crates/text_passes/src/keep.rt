// What a pass keeps of an element and of a pool: marks in a tally, or their words in a table.
ghost use Rattle.std.specs.Prelude.{◌≡◌, ◌+◌, ◌-◌, ◌≤◌, ◌<◌};
ghost use Rattle.base_words.specs.Words.{at};
ghost use Rattle.base_words.specs.Writes.{writes};
ghost use Rattle.base_table.specs.Places.{element_words, element_place};
ghost use Rattle.base_words.specs.Pick.{if◌then◌or_else◌};
ghost use Rattle.text_passes.specs.Passes.{stored_as, summed_up, kept_element, headed_as, pool_judged, kept_head};

use base_table::places::{
    ELEMENT_COUNT, ELEMENT_WORDS, FIRST_ELEMENT, FIRST_POOL, LIMIT, POOL_COUNT, POOL_WORDS,
};
use base_words::{Word, put};
use check_summary::{SUMMARY_WORDS, mark_element};
use check_verdict::mark_pool;
use text_ends::{head, note_element, note_room};

// How many words of an element at a place fit into a table of n words: all, but for what a table's length says.
fn fitting(place: usize, n: usize) -> usize
    ensures { (result ≤ element_words) × (result ≤ n - place) × (result < element_words → n ≤ place + result) }
{
    if place >= n {
        return 0;
    }
    if n - place < ELEMENT_WORDS {
        return n - place;
    }
    ELEMENT_WORDS
}

// The words of element n of pool i.
fn copy_element(t: &mut [Word], i: Word, n: Word, x: &[Word; ELEMENT_WORDS])
    ensures { t.new ≡ writes (λ j. at x.now j) t.old (element_place i n) element_words }
{
    let place = FIRST_POOL
        + POOL_WORDS * (i as usize)
        + FIRST_ELEMENT
        + ELEMENT_WORDS * (n as usize);
    let count = fitting(place, t.len());
    for j in 0..count {
        t[place + j] = x[j];
    }
}

fn store_element(t: &mut [Word], i: Word, n: Word, count: Word, x: &[Word; ELEMENT_WORDS])
    ensures { t.new ≡ stored_as i n count x.now t.old }
{
    copy_element(t, i, n, x);
    put(
        t,
        FIRST_POOL + POOL_WORDS * (i as usize) + ELEMENT_COUNT,
        count,
    );
}

// The count-th element in the summary s of its pool, and in the notes behind it.
fn sum_up(s: &mut [Word], count: Word, x: &[Word; ELEMENT_WORDS])
    ensures { s.new ≡ summed_up count x.now s.old }
{
    mark_element(s, x);
    note_element(s, count, x);
}

// Element n of pool i, and the count of its elements.
pub fn keep_counted(
    fills: bool,
    w: &mut [Word],
    i: Word,
    n: Word,
    count: Word,
    x: &[Word; ELEMENT_WORDS],
)
    ensures { w.new ≡ (if fills then stored_as i n count x.now w.old or_else summed_up count x.now w.old) }
{
    if fills {
        store_element(w, i, n, count, x);
        return;
    }
    sum_up(w, count, x);
}

// Element n of pool i.
pub fn keep_element(fills: bool, w: &mut [Word], i: u8, n: u8, x: &[Word; ELEMENT_WORDS])
    ensures { w.new ≡ kept_element fills i n x.now w.old }
{
    keep_counted(fills, w, i as Word, n as Word, n as Word + 1, x);
}

fn store_head(t: &mut [Word], i: Word, count: Word, number: Word, limit: Word)
    ensures { t.new ≡ headed_as i count number limit t.old }
{
    put(t, FIRST_POOL + POOL_WORDS * (i as usize), number);
    put(t, FIRST_POOL + POOL_WORDS * (i as usize) + LIMIT, limit);
    put(t, POOL_COUNT, count);
}

// A pool in the tally of its model, by its summary s and the notes behind it.
fn judge_pool(w: &mut [Word], number: Word, limit: Word, s: &[Word])
    ensures { w.new ≡ pool_judged number limit s.now w.old }
{
    mark_pool(w, number, limit, head(s, SUMMARY_WORDS));
    note_room(w, s);
}

// Pool i behind its elements, with its summary s, and the count of pools.
pub fn keep_counted_head(
    fills: bool,
    w: &mut [Word],
    i: Word,
    count: Word,
    number: Word,
    limit: Word,
    s: &[Word],
)
    ensures { w.new ≡ (if fills then headed_as i count number limit w.old or_else pool_judged number limit s.now w.old) }
{
    if fills {
        store_head(w, i, count, number, limit);
        return;
    }
    judge_pool(w, number, limit, s);
}

// Pool i behind its elements, with its summary s.
pub fn keep_head(fills: bool, w: &mut [Word], i: u8, number: Word, limit: Word, s: &[Word])
    ensures { w.new ≡ kept_head fills i number limit s.now w.old }
{
    keep_counted_head(fills, w, i as Word, i as Word + 1, number, limit, s);
}
