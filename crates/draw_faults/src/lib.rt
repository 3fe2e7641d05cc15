// 21: what is amiss in a drawing.
#![tactic(auto)]

ghost use Rattle.std.specs.Prelude.{ℕ, ◌<◌, true, false, ◌≡◌};
ghost use Rattle.base_words.specs.All.{all};
ghost use Rattle.draw_faults.specs.Amiss.{has, amiss_as_flow, amiss_as_node, amiss_as_pool, is_amiss, is_right, is_repeated, is_drawing};
ghost use Rattle.draw_numbers.specs.Who.{has_participants, has_pool};
ghost use Rattle.draw_faults.specs.Once.{Plain};

use draw_kinds::counting::of_sort;
use draw_links::attribute_of;
use draw_numbers::who::{has_participants, has_pool, is_of_kind};
use draw_things::things::{CONDITION_EXPRESSION, Note, PARTICIPANT_MULTIPLICITY, ROOM, STRANGER};
use flows::{is_loose, is_wrong_branch, is_wrong_condition, is_wrong_message_by};
use nodes::{has_wrong_default, is_unheard, is_untold};
use pools::{first_odd, is_lost, is_second, is_second_collaboration, is_unowned_by};
use repeats::first_repeated;

pub mod flows;
pub mod ids;
pub mod nodes;
pub mod pools;
pub mod repeats;

// Whether an attribute of thing k is there.
pub fn has(text: &[u8], name: &[u8], w: &[Note], k: Note) -> bool
    ensures { result ≡ has text.now name.now w.now k }
{
    let a = attribute_of(text, w, k, name);
    let Some((_, _)) = a else {
        return false;
    };
    true
}

#[tactic(auto, unfolding(crate::specs::Amiss::amiss_as_flow, crate::specs::Amiss::is_second_condition))]
fn amiss_as_flow(plain: bool, text: &[u8], w: &[Note], n: Note, k: Note) -> bool
    ensures { (plain ≡ true → Plain text.now w.now n) → result ≡ amiss_as_flow text.now w.now k }
{
    if is_loose(w, k) {
        return true;
    }
    if is_wrong_branch(w, k) {
        return true;
    }
    if is_second(CONDITION_EXPRESSION, w, k) {
        return true;
    }
    is_wrong_condition(text, w, k) || is_wrong_message_by(plain, n, text, w, k)
}

#[tactic(auto, unfolding(crate::specs::Amiss::amiss_as_node, crate::specs::Amiss::is_of_no_kind))]
fn amiss_as_node(text: &[u8], w: &[Note], n: Note, k: Note) -> bool
    ensures { result ≡ amiss_as_node text.now w.now n k }
{
    if is_of_kind(0, w, k) {
        return true;
    }
    if has_wrong_default(text, w, n, k) {
        return true;
    }
    is_unheard(w, n, k) || is_untold(w, n, k)
}

#[tactic(auto, unfolding(crate::specs::Amiss::amiss_as_pool, crate::specs::Amiss::is_second_multiplicity))]
fn amiss_as_pool(owned: bool, text: &[u8], w: &[Note], n: Note, k: Note) -> bool
    ensures { owned ≡ has_participants w.now n → result ≡ amiss_as_pool text.now w.now n k }
{
    if is_second_collaboration(w, k) {
        return true;
    }
    if is_lost(text, w, k) {
        return true;
    }
    is_unowned_by(owned, w, n, k) || is_second(PARTICIPANT_MULTIPLICITY, w, k)
}

// Whether thing k is amiss, where its id is not repeated and it is known whether there are participants and all are plain.
#[tactic(auto, unfolding(crate::specs::Amiss::is_amiss, crate::specs::Amiss::is_strange))]
fn is_amiss(owned: bool, plain: bool, text: &[u8], w: &[Note], n: Note, k: Note) -> bool
    ensures { owned ≡ has_participants w.now n → (plain ≡ true → Plain text.now w.now n) → is_repeated text.now w.now k ≡ false → result ≡ is_amiss text.now w.now n k }
{
    if of_sort(STRANGER, w, k) {
        return true;
    }
    if amiss_as_flow(plain, text, w, n, k) {
        return true;
    }
    amiss_as_node(text, w, n, k) || amiss_as_pool(owned, text, w, n, k)
}

fn all_right(owned: bool, plain: bool, text: &[u8], w: &[Note], n: Note) -> bool
    ensures { owned ≡ has_participants w.now n → (plain ≡ true → Plain text.now w.now n) → ((k : ℕ) → k < n → is_repeated text.now w.now k ≡ false) → result ≡ all (is_right text.now w.now n) n }
{
    (0..n).all(|k| !is_amiss(owned, plain, text, w, n, k))
}

// Whether all things are right: what can be asked of all of them at once is asked first.
fn are_right(text: &[u8], w: &[Note], n: Note) -> bool
    ensures { result ≡ all (is_right text.now w.now n) n }
{
    if first_repeated(text, w, n) < n {
        return false;
    }
    let odd = first_odd(text, w, n);
    if odd < n && is_lost(text, w, odd) {
        return false;
    }
    all_right(has_participants(w, n), n <= odd, text, w, n)
}

fn has_pools(w: &[Note], n: Note) -> bool
    ensures { result ≡ has_pool (has_participants w.now n) w.now n }
{
    has_pool(has_participants(w, n), w, n)
}

// Whether nothing is amiss in what is drawn, its flows joined and its kinds settled.
#[tactic(auto, unfolding(crate::specs::Amiss::is_drawing))]
pub fn is_drawing(text: &[u8], w: &[Note], n: Note) -> bool
    ensures { result ≡ is_drawing text.now w.now n }
{
    n as usize <= ROOM && (has_pools(w, n) && are_right(text, w, n))
}
