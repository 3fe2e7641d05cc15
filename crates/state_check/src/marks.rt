// The places of tokens and counts that the elements of a pool let its instances use, marked in a block of words.
ghost use Rattle.std.specs.Prelude.{◌≡◌, ◌+◌, eqb};
ghost use Rattle.base_words.specs.Each.{tab};
ghost use Rattle.base_words.specs.Iter.{iter};
ghost use Rattle.base_words.specs.Words.{at};
ghost use Rattle.base_kinds.specs.Kinds.{kind_of};
ghost use Rattle.base_table.specs.Places.{edge_place};
ghost use Rattle.base_table.specs.Table.{element_count, element_at, kind_in, entry_count, exit_count, entry_at, exit_at};
ghost use Rattle.base_state.specs.Places.{token_place};
ghost use Rattle.state_fits.specs.Fits.{count_places, places_of, all_marked};

use base_kinds::moves::A;
use base_kinds::{receives_of, sends_of};
use base_state::{put_active, put_ready, put_tokens};
use base_table::places::{ENTRIES, EXITS};
use base_table::{
    edge_at, element_at, element_count, entry_count, exit_count, kind_in, mode_in, task_in,
};
use base_words::Word;

// The tokens of the first n edges of the list at a place: ENTRIES or EXITS.
fn mark_edges(w: &mut [Word], el: &[Word], list: Word, n: Word)
    ensures { w.new ≡ all_marked w.old (tab (λ j. token_place (at el.now (edge_place list j))) n) }
{
    for j in 0..n {
        put_tokens(w, edge_at(el, list, j), 1);
    }
}

fn mark_entries(w: &mut [Word], el: &[Word])
    ensures { w.new ≡ all_marked w.old (tab (λ j. token_place (entry_at el.now j)) (entry_count el.now)) }
{
    mark_edges(w, el, ENTRIES as Word, entry_count(el));
}

fn mark_exits(w: &mut [Word], el: &[Word])
    ensures { w.new ≡ all_marked w.old (tab (λ j. token_place (exit_at el.now j)) (exit_count el.now)) }
{
    mark_edges(w, el, EXITS as Word, exit_count(el));
}

// Whether an element neither receives nor sends: u64, for a sum of two words.
fn is_silent(el: &[Word]) -> bool
    ensures { result ≡ eqb ((kind_of (kind_in el.now)).receives + (kind_of (kind_in el.now)).sends) 0 }
{
    let kind = kind_in(el);
    (receives_of(kind) as u64) + (sends_of(kind) as u64) == 0
}

fn mark_counts(w: &mut [Word], el: &[Word])
    ensures { w.new ≡ all_marked w.old (count_places el.now) }
{
    if mode_in(el) <= A {
        return;
    }
    put_active(w, task_in(el), 1);
    if is_silent(el) {
        return;
    }
    put_ready(w, task_in(el), 1);
}

fn mark_element(w: &mut [Word], el: &[Word])
    ensures { w.new ≡ all_marked w.old (places_of el.now) }
{
    mark_entries(w, el);
    mark_exits(w, el);
    mark_counts(w, el);
}

// The elements of a pool.
pub fn mark_pool(w: &mut [Word], t: &[Word], p: Word)
    ensures { w.new ≡ iter (λ e v. all_marked v (places_of (element_at t.now p e))) w.old (element_count t.now p) }
{
    for e in 0..element_count(t, p) {
        mark_element(w, element_at(t, p, e));
    }
}
