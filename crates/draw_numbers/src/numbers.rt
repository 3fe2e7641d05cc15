// The numbers that things of a drawing have: by how many stand before.
ghost use Rattle.std.specs.Prelude.{◌≡◌, ◌&&◌, ltb};
ghost use Rattle.text_numerals.specs.Numerals.{number_of, if_value};
ghost use Rattle.draw_things.specs.Things.{source};
ghost use Rattle.base_kinds.specs.Kinds.{event_based};
ghost use Rattle.draw_numbers.specs.Who.{is_of_kind, is_pool};
ghost use Rattle.draw_numbers.specs.Numbers.{count_before, is_element, is_task, is_edge, is_start, is_of, is_before_first, task_of, edge_of, first_edge_of, message_of, maximum_of, default_of};

use super::who::{is_of_kind, is_pool};
use base_bytes::piece;
use base_kinds::moves::{EVENT_BASED, START};
use base_words::Word;
use draw_kinds::counting::{count_sort, of_sort};
use draw_links::{attribute_of, is_node_at, named};
use draw_things::things::{
    BRANCH, MESSAGE_FLOW, Note, RECEIVE_TASK, SEQUENCE_FLOW, TASK, kind_of_thing, next_number,
    sort_of, source_of, within_of,
};
use text_numerals::{Number, number_of};

// What is counted.
pub const AN_ELEMENT: Word = 0;

pub const A_TASK: Word = 1;

pub const AN_EDGE: Word = 2;

// Whether thing j is an element of process p.
#[tactic(auto, unfolding(crate::specs::Numbers::is_element))]
pub fn is_element(p: Note, w: &[Note], j: Note) -> bool
    ensures { result ≡ is_element p w.now j }
{
    is_node_at(w, j) && within_of(w, j) == p && kind_of_thing(w, j) != BRANCH
}

// Whether thing j is a task of process p.
#[tactic(auto, unfolding(crate::specs::Numbers::is_task))]
pub fn is_task(p: Note, w: &[Note], j: Note) -> bool
    ensures { result ≡ is_task p w.now j }
{
    let s = sort_of(w, j);
    TASK <= s && s <= RECEIVE_TASK && within_of(w, j) == p
}

fn leaves_events(w: &[Note], j: Note) -> bool
    ensures { result ≡ is_of_kind event_based w.now (source w.now j) }
{
    is_of_kind(EVENT_BASED, w, source_of(w, j))
}

#[tactic(auto, unfolding(crate::specs::Numbers::is_edge))]
fn is_edge(p: Note, w: &[Note], j: Note) -> bool
    ensures { result ≡ is_edge p w.now j }
{
    of_sort(SEQUENCE_FLOW, w, j) && within_of(w, j) == p && !leaves_events(w, j)
}

// Whether thing j is a start of process p.
#[tactic(auto, unfolding(crate::specs::Numbers::is_start))]
pub fn is_start(p: Note, w: &[Note], j: Note) -> bool
    ensures { result ≡ is_start p w.now j }
{
    is_of_kind(START, w, j) && within_of(w, j) == p
}

// Whether thing j is one of those that are counted, in process p.
#[tactic(auto, using(base_words::proofs::PickLaws::picks), unfolding(crate::specs::Numbers::is_of))]
pub fn is_of(class: Word, p: Note, w: &[Note], j: Note) -> bool
    ensures { result ≡ is_of class p w.now j }
{
    if class == AN_ELEMENT {
        return is_element(p, w, j);
    }
    if class == A_TASK {
        return is_task(p, w, j);
    }
    is_edge(p, w, j)
}

// How many of those that are counted stand before thing k.
pub fn count_of(class: Word, p: Note, w: &[Note], k: Note) -> Word
    ensures { result ≡ count_before (is_of class p w.now) k }
{
    (0..k).filter(|&j| is_of(class, p, w, j)).count() as Word
}

fn starts_before(p: Note, k: Note, w: &[Note], j: Note) -> bool
    ensures { result ≡ is_start p w.now j && ltb j k }
{
    is_start(p, w, j) && j < k
}

#[tactic(auto, unfolding(crate::specs::Numbers::is_before_first))]
fn is_before_first(p: Note, k: Note, w: &[Note], j: Note) -> bool
    ensures { result ≡ is_before_first p k w.now j }
{
    is_edge(p, w, j) || starts_before(p, k, w, j)
}

fn count_before_first(p: Note, k: Note, w: &[Note], n: Note) -> Word
    ensures { result ≡ count_before (is_before_first p k w.now) n }
{
    (0..n).filter(|&j| is_before_first(p, k, w, j)).count() as Word
}

// How many pools stand before thing k.
pub fn count_pools(owned: bool, w: &[Note], k: Note) -> Word
    ensures { result ≡ count_before (is_pool owned w.now) k }
{
    (0..k).filter(|&j| is_pool(owned, w, j)).count() as Word
}

// The number of task k.
#[tactic(auto, unfolding(crate::specs::Numbers::task_of))]
pub fn task_of(w: &[Note], k: Note) -> Word
    ensures { result ≡ task_of w.now k }
{
    next_number(count_of(A_TASK, within_of(w, k), w, k))
}

// The number of the edge that flow k is.
#[tactic(auto, unfolding(crate::specs::Numbers::edge_of))]
pub fn edge_of(w: &[Note], k: Note) -> Word
    ensures { result ≡ edge_of w.now k }
{
    next_number(count_of(AN_EDGE, within_of(w, k), w, k))
}

// The number of the first edge of start k.
#[tactic(auto, unfolding(crate::specs::Numbers::first_edge_of))]
pub fn first_edge_of(w: &[Note], n: Note, k: Note) -> Word
    ensures { result ≡ first_edge_of w.now n k }
{
    next_number(count_before_first(within_of(w, k), k, w, n))
}

// The name of the message that flow k is.
#[tactic(auto, unfolding(crate::specs::Numbers::message_of))]
pub fn message_of(w: &[Note], k: Note) -> Word
    ensures { result ≡ message_of w.now k }
{
    count_sort(MESSAGE_FLOW, w, k)
}

fn value_of(word: &[u8]) -> Word
    ensures { result ≡ if_value (number_of word.now) (λ v. v) 0 }
{
    let number = number_of(word);
    let Number::Value(v) = number else {
        return 0;
    };
    v
}

// The maximum of multiplicity k.
pub fn maximum_of(text: &[u8], w: &[Note], k: Note) -> Word
    ensures { result ≡ maximum_of text.now w.now k }
{
    let a = attribute_of(text, w, k, b"maximum");
    let Some((from, to)) = a else {
        return 1;
    };
    value_of(piece(text, from, to))
}

// The default flow of split k.
#[tactic(auto, unfolding(crate::specs::Numbers::default_of))]
pub fn default_of(text: &[u8], w: &[Note], n: Note, k: Note) -> Note
    ensures { result ≡ default_of text.now w.now n k }
{
    named(text, w, n, k, b"default")
}
