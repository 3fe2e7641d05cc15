// The model that a drawing means, kept by a pass as that of a text is: marked in tallies, or stored in a table.
#![tactic(auto)]

ghost use Rattle.std.specs.Prelude.{◌≡◌, ◌+◌, ◌<◌, length};
ghost use Rattle.base_words.specs.Words.{greatest};
ghost use Rattle.text_passes.specs.Passes.{kept_element, kept_all, summed, elements_placed, kept_pool};
ghost use Rattle.draw_model.specs.Content.{element_if, elements_of, limit_of, process_of, number_of, pool_drawn, pool_if, content};

use base_table::places::ELEMENT_WORDS;
use base_words::Word;
use draw_kinds::counting::{WITHIN_IN, first_with};
use draw_numbers::numbers::{count_pools, is_element, maximum_of};
use draw_numbers::who::{has_participants, is_pool};
use draw_things::things::{Note, PARTICIPANT_MULTIPLICITY, next_number, source_of};
use element::element_drawn;
use text_ends::NOTED_WORDS;
use text_passes::keep::{keep_counted, keep_counted_head};

pub mod element;

// Element `count` of pool i, where thing k is one of process p; the count of elements behind it.
fn keep_next(
    fills: bool,
    text: &[u8],
    w: &[Note],
    n: Note,
    p: Note,
    k: Note,
    i: Word,
    count: Word,
    v: &mut [Word],
) -> Word
    requires { count < greatest }
    ensures value { result ≡ count + length (element_if text.now w.now n p k) }
    ensures v_after { v.new ≡ kept_all (kept_element fills i) count (element_if text.now w.now n p k) v.old }
{
    if !is_element(p, w, k) {
        return count;
    }
    let mut x = [0; ELEMENT_WORDS];
    element_drawn(text, w, n, k, &mut x);
    keep_counted(fills, v, i, count, count + 1, &x);
    count + 1
}

// The elements of process p, as those of pool i.
fn keep_elements(fills: bool, text: &[u8], w: &[Note], n: Note, p: Note, i: Word, v: &mut [Word])
    ensures { v.new ≡ kept_all (kept_element fills i) 0 (elements_of text.now w.now n p) v.old }
{
    let mut count: Word = 0;
    for k in 0..n {
        count = keep_next(fills, text, w, n, p, k, i, count, v);
    }
}

// The elements of process p: marked in the summary s of pool i, or stored in the table v.
fn keep_all(
    fills: bool,
    text: &[u8],
    w: &[Note],
    n: Note,
    p: Note,
    i: Word,
    s: &mut [Word],
    v: &mut [Word],
)
    ensures s_after { s.new ≡ summed fills i (elements_of text.now w.now n p) s.old }
    ensures v_after { v.new ≡ elements_placed fills i (elements_of text.now w.now n p) v.old }
{
    if fills {
        keep_elements(fills, text, w, n, p, i, v);
        return;
    }
    keep_elements(fills, text, w, n, p, i, s);
}

fn limit_of(text: &[u8], w: &[Note], n: Note, k: Note) -> Word
    ensures { result ≡ limit_of text.now w.now n k }
{
    let i = first_with(PARTICIPANT_MULTIPLICITY, WITHIN_IN, k, w, n);
    if i < n {
        return maximum_of(text, w, i);
    }
    0
}

fn process_of(owned: bool, w: &[Note], k: Note) -> Note
    ensures { result ≡ process_of owned w.now k }
{
    if owned { source_of(w, k) } else { k }
}

fn number_of(owned: bool, w: &[Note], k: Note) -> Word
    ensures { result ≡ number_of owned w.now k }
{
    next_number(count_pools(owned, w, k))
}

// Thing k as pool i.
fn keep_pool(
    fills: bool,
    owned: bool,
    text: &[u8],
    w: &[Note],
    n: Note,
    k: Note,
    i: Word,
    v: &mut [Word],
)
    requires { i < greatest }
    ensures { v.new ≡ kept_pool fills i (pool_drawn owned text.now w.now n k) v.old }
{
    let mut s = [0; NOTED_WORDS];
    keep_all(fills, text, w, n, process_of(owned, w, k), i, &mut s, v);
    let number = number_of(owned, w, k);
    let limit = limit_of(text, w, n, k);
    keep_counted_head(fills, v, i, i + 1, number, limit, &s);
}

// Thing k as pool i, where it is a pool; the count of pools behind it.
fn keep_next_pool(
    fills: bool,
    owned: bool,
    text: &[u8],
    w: &[Note],
    n: Note,
    k: Note,
    i: Word,
    v: &mut [Word],
) -> Word
    requires { i < greatest }
    ensures value { result ≡ i + length (pool_if owned text.now w.now n k) }
    ensures v_after { v.new ≡ kept_all (kept_pool fills) i (pool_if owned text.now w.now n k) v.old }
{
    if !is_pool(owned, w, k) {
        return i;
    }
    keep_pool(fills, owned, text, w, n, k, i, v);
    i + 1
}

// The pools of a drawing, kept in v.
pub fn keep_content(fills: bool, text: &[u8], w: &[Note], n: Note, v: &mut [Word])
    ensures { v.new ≡ kept_all (kept_pool fills) 0 (content text.now w.now n) v.old }
{
    let owned = has_participants(w, n);
    let mut i: Word = 0;
    for k in 0..n {
        i = keep_next_pool(fills, owned, text, w, n, k, i, v);
    }
}
