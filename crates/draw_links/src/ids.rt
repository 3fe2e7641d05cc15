// Where the ids of things stand, noted so that no tag is gone through again for its id.
ghost use Rattle.std.specs.Prelude.{◌≡◌, true, false, ℕ, ◌-◌, ◌<◌, drop};
ghost use Rattle.base_words.specs.All.{all};
ghost use Rattle.base_words.specs.Words.{at};
ghost use Rattle.draw_links.specs.Links.{has_id};
ghost use Rattle.draw_links.specs.Notes.{behind_quote, note_of, retargeted, no_note, noted, bared, is_free, IdNoted, is_up_to};

use super::{has_id, is_flow};
use base_bytes::{byte, piece};
use draw_things::things::{Note, THING_WORDS, place_of, set_target, target_of};
use xml_markup::spans::quote_at;
use xml_markup::tokens::found;

// The greatest note: the id stands further.
const FAR: u16 = 65535;

#[tactic(auto, using(base_words::proofs::PickLaws::picks), unfolding(crate::specs::Notes::behind_quote))]
fn behind_quote(q: usize) -> u16
    ensures { result ≡ behind_quote q }
{
    if q < 65534 { q as u16 + 1 } else { FAR }
}

fn note_of(text: &[u8], w: &[Note], j: Note) -> u16
    ensures { result ≡ note_of text.now w.now j }
{
    let f = found(text, b"id", place_of(w, j) as usize);
    let Some(i) = f else {
        return 0;
    };
    behind_quote(quote_at(text, i))
}

// No tag is gone through for a thing that the block does not hold.
fn note_id(text: &[u8], w: &mut [Note], k: Note)
    ensures { w.new ≡ retargeted (note_of text.now) k w.old }
{
    if w.len() < THING_WORDS * (k as usize + 1) {
        return;
    }
    if is_flow(w, k) {
        return;
    }
    let a = note_of(text, w, k);
    set_target(w, k, a);
}

// Notes the ids of the first n things.
pub fn note_ids(text: &[u8], w: &mut [Note], n: Note)
    ensures { w.new ≡ noted text.now n w.old }
{
    for k in 0..n {
        note_id(text, w, k);
    }
}

#[tactic(auto, using(base_words::proofs::PickLaws::picks), unfolding(crate::specs::Notes::retargeted))]
fn clear_id(w: &mut [Note], k: Note)
    ensures { w.new ≡ retargeted no_note k w.old }
{
    if is_flow(w, k) {
        return;
    }
    set_target(w, k, 0);
}

// Takes the notes of ids away again.
pub fn clear_ids(w: &mut [Note], n: Note)
    ensures { w.new ≡ bared n w.old }
{
    for k in 0..n {
        clear_id(w, k);
    }
}

#[tactic(auto, unfolding(crate::specs::Notes::is_free))]
fn is_free(w: &[Note], k: Note) -> bool
    ensures { result ≡ is_free w.now k }
{
    is_flow(w, k) || target_of(w, k) == 0
}

// Whether the notes of the first n things can be taken away again.
pub fn are_free(w: &[Note], n: Note) -> bool
    ensures { result ≡ all (is_free w.now) n }
{
    (0..n).all(|k| is_free(w, k))
}

fn is_up_to(q: u8, v: &[u8], s: &[u8]) -> bool
    ensures { result ≡ is_up_to q v.now s.now }
{
    for i in 0..v.len() {
        if s.len() <= i || s[i] != v[i] || s[i] == q {
            return false;
        }
    }
    s.len() <= v.len() || s[v.len()] == q
}

// Whether the value whose first byte stands at a place is these bytes.
fn stands_at(text: &[u8], a: usize, v: &[u8]) -> bool
    requires { 0 < a }
    ensures { result ≡ is_up_to (at text.now (a - 1)) v.now (drop a text.now) }
{
    is_up_to(byte(text, a - 1), v, piece(text, a, text.len()))
}

// Whether the byte at a place shows that other bytes stand there, which most do.
fn begins_otherwise(text: &[u8], a: usize, v: &[u8]) -> bool
    ensures { result ≡ true → (q : ℕ) → false ≡ is_up_to q v.now (drop a text.now) }
{
    !v.is_empty() && a < text.len() && text[a] != v[0]
}

// Whether thing j has an id, by its note.
pub fn has_noted_id(text: &[u8], v: &[u8], w: &[Note], j: Note) -> bool
    ensures { IdNoted text.now w.now j → result ≡ has_id text.now v.now w.now j }
{
    let a = target_of(w, j);
    if a == 0 {
        return w.len() < THING_WORDS * (j as usize + 1) && has_id(text, v, w, j);
    }
    if a == FAR {
        return has_id(text, v, w, j);
    }
    let i = a as usize;
    if begins_otherwise(text, i, v) {
        return false;
    }
    stands_at(text, i, v)
}
