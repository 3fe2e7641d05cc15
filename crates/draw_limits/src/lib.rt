// 3: what is beyond the limits in a drawing, and its place.
#![tactic(auto)]

ghost use Rattle.std.specs.Prelude.{◌≡◌, not, eqb};
ghost use Rattle.draw_things.specs.Things.{place, within, source};
ghost use Rattle.draw_conditions.specs.Conditions.{condition_at};
ghost use Rattle.draw_limits.specs.Excess.{is_fifth_pool, is_one_too_many, is_start_beyond, is_node_beyond, is_ninth, is_flow_beyond, is_used, is_message_beyond, is_limit, is_maximum_beyond, is_guarded, is_condition_beyond, is_beyond, value_place, beyond_at, first_beyond};

use base_words::Word;
use base_words::counts::{BRANCHES, EDGES, ELEMENTS, INSTANCES, NAMES, POOLS, TASKS};
use draw_conditions::condition_at;
use draw_kinds::counting::{SOURCE_IN, TARGET_IN, count_with, of_sort};
use draw_links::{attribute_of, is_node_at};
use draw_numbers::numbers::{
    A_TASK, AN_EDGE, AN_ELEMENT, count_of, count_pools, default_of, first_edge_of, is_of, is_start,
    maximum_of, message_of,
};
use draw_numbers::who::{has_participants, is_pool, is_split};
use draw_things::things::{
    CONDITION_EXPRESSION, MESSAGE_FLOW, Note, PARTICIPANT_MULTIPLICITY, SEQUENCE_FLOW, place_of,
    source_of, target_of, within_of,
};

fn is_fifth_pool(owned: bool, w: &[Note], k: Note) -> bool
    ensures { result ≡ is_fifth_pool owned w.now k }
{
    is_pool(owned, w, k) && POOLS <= count_pools(owned, w, k)
}

fn is_one_too_many(class: Word, most: Word, w: &[Note], k: Note) -> bool
    ensures { result ≡ is_one_too_many class most w.now k }
{
    let p = within_of(w, k);
    is_of(class, p, w, k) && most <= count_of(class, p, w, k)
}

fn is_start_beyond(w: &[Note], n: Note, k: Note) -> bool
    ensures { result ≡ is_start_beyond w.now n k }
{
    is_start(within_of(w, k), w, k) && EDGES < first_edge_of(w, n, k)
}

fn is_node_beyond(w: &[Note], n: Note, k: Note) -> bool
    ensures { result ≡ is_node_beyond w.now n k }
{
    if is_one_too_many(AN_ELEMENT, ELEMENTS, w, k) {
        return true;
    }
    is_one_too_many(A_TASK, TASKS, w, k) || is_start_beyond(w, n, k)
}

fn is_ninth(w: &[Note], k: Note) -> bool
    ensures { result ≡ is_ninth w.now k }
{
    BRANCHES <= count_with(SEQUENCE_FLOW, SOURCE_IN, source_of(w, k), w, k)
        || BRANCHES <= count_with(SEQUENCE_FLOW, TARGET_IN, target_of(w, k), w, k)
}

fn is_flow_beyond(w: &[Note], k: Note) -> bool
    ensures { result ≡ is_flow_beyond w.now k }
{
    of_sort(SEQUENCE_FLOW, w, k) && (is_one_too_many(AN_EDGE, EDGES, w, k) || is_ninth(w, k))
}

fn is_used(w: &[Note], k: Note) -> bool
    ensures { result ≡ is_used w.now k }
{
    is_node_at(w, source_of(w, k)) || is_node_at(w, target_of(w, k))
}

fn is_message_beyond(w: &[Note], k: Note) -> bool
    ensures { result ≡ is_message_beyond w.now k }
{
    of_sort(MESSAGE_FLOW, w, k) && (is_used(w, k) && NAMES <= message_of(w, k))
}

fn is_limit(v: Word) -> bool
    ensures { result ≡ is_limit v }
{
    1 <= v && v <= INSTANCES
}

// Whether the thing in which thing k stands is a participant with a process.
fn is_owned(w: &[Note], k: Note) -> bool
    ensures { result ≡ not (eqb (source w.now (within w.now k)) 0) }
{
    source_of(w, within_of(w, k)) != 0
}

fn is_maximum_beyond(text: &[u8], w: &[Note], k: Note) -> bool
    ensures { result ≡ is_maximum_beyond text.now w.now k }
{
    of_sort(PARTICIPANT_MULTIPLICITY, w, k) && (is_owned(w, k) && !is_limit(maximum_of(text, w, k)))
}

fn is_guarded(text: &[u8], w: &[Note], n: Note, j: Note) -> bool
    ensures { result ≡ is_guarded text.now w.now n j }
{
    let gateway = source_of(w, j);
    is_split(w, gateway) && default_of(text, w, n, gateway) != j
}

fn condition_beyond(text: &[u8], w: &[Note], k: Note) -> usize
    ensures { result ≡ (condition_at text.now (place w.now k)).beyond }
{
    let said = condition_at(text, place_of(w, k) as usize);
    said.beyond
}

fn is_condition_beyond(text: &[u8], w: &[Note], n: Note, k: Note) -> bool
    ensures { result ≡ is_condition_beyond text.now w.now n k }
{
    of_sort(CONDITION_EXPRESSION, w, k)
        && (condition_beyond(text, w, k) != 0 && is_guarded(text, w, n, within_of(w, k)))
}

fn is_beyond(owned: bool, text: &[u8], w: &[Note], n: Note, k: Note) -> bool
    ensures { result ≡ is_beyond owned text.now w.now n k }
{
    if is_fifth_pool(owned, w, k) {
        return true;
    }
    if is_node_beyond(w, n, k) {
        return true;
    }
    if is_flow_beyond(w, k) {
        return true;
    }
    if is_message_beyond(w, k) {
        return true;
    }
    is_maximum_beyond(text, w, k) || is_condition_beyond(text, w, n, k)
}

// The first thing that is beyond the limits, n where none is.
pub fn first_beyond(text: &[u8], w: &[Note], n: Note) -> Note
    ensures { result ≡ first_beyond text.now w.now n }
{
    let owned = has_participants(w, n);
    (0..n)
        .find(|&k| is_beyond(owned, text, w, n, k))
        .unwrap_or(n)
}

fn value_place(text: &[u8], w: &[Note], k: Note) -> usize
    ensures { result ≡ value_place text.now w.now k }
{
    let a = attribute_of(text, w, k, b"maximum");
    let Some((from, _)) = a else {
        return 0;
    };
    from
}

// The place of what is beyond in thing k.
pub fn beyond_at(text: &[u8], w: &[Note], k: Note) -> usize
    ensures { result ≡ beyond_at text.now w.now k }
{
    if of_sort(PARTICIPANT_MULTIPLICITY, w, k) {
        return value_place(text, w, k);
    }
    if of_sort(CONDITION_EXPRESSION, w, k) {
        return condition_beyond(text, w, k);
    }
    place_of(w, k) as usize
}
