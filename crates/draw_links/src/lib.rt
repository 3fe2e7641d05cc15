// What the references of a drawing name, and the ends of its flows.
#![tactic(auto)]

ghost use Rattle.std.specs.Prelude.{true, ◌&&◌, ◌||◌, ◌≡◌, eqb};
ghost use Rattle.base_words.specs.All.{all};
ghost use Rattle.base_words.specs.Seek.{seek};
ghost use Rattle.draw_things.specs.Things.{sort, within, source, place, is_node, participant, message_flow, process, sequence_flow};
ghost use Rattle.xml_markup.specs.Spans.{attribute};
ghost use Rattle.draw_links.specs.Links.{has_id, may_name, or_none, meant, named, flow_joined, owned, linked, links};
ghost use Rattle.draw_links.specs.Notes.{is_flow, is_free, NotedAt, Noted, NotedIf};

use base_bytes::{piece, same};
use draw_things::things::{
    MESSAGE_FLOW, Note, PARTICIPANT, PROCESS, SEQUENCE_FLOW, is_node, place_of, set_source,
    set_target, sort_of, source_of, within_of,
};
use ids::{are_free, clear_ids, has_noted_id, note_ids};
use xml_markup::spans::{attribute, local_of};

pub mod ids;

// An attribute of a thing.
pub fn attribute_of(text: &[u8], w: &[Note], k: Note, name: &[u8]) -> Option<(usize, usize)>
    ensures { result ≡ attribute text.now (place w.now k) name.now }
{
    let p = place_of(w, k) as usize;
    attribute(text, p, name)
}

// Whether thing j has an id.
pub fn has_id(text: &[u8], v: &[u8], w: &[Note], j: Note) -> bool
    ensures { result ≡ has_id text.now v.now w.now j }
{
    let a = attribute_of(text, w, j, b"id");
    let Some((from, to)) = a else {
        return false;
    };
    same(piece(text, from, to), v)
}

// Whether thing j is a node.
pub fn is_node_at(w: &[Note], j: Note) -> bool
    ensures { result ≡ is_node (sort w.now j) }
{
    is_node(sort_of(w, j))
}

fn is_beside(w: &[Note], k: Note, j: Note) -> bool
    ensures { result ≡ is_node (sort w.now j) && eqb (within w.now j) (within w.now k) }
{
    is_node_at(w, j) && within_of(w, j) == within_of(w, k)
}

fn is_end(w: &[Note], j: Note) -> bool
    ensures { result ≡ is_node (sort w.now j) || eqb (sort w.now j) participant }
{
    is_node_at(w, j) || sort_of(w, j) == PARTICIPANT
}

fn is_exit(w: &[Note], k: Note, j: Note) -> bool
    ensures { result ≡ eqb (sort w.now j) sequence_flow && eqb (source w.now j) k }
{
    sort_of(w, j) == SEQUENCE_FLOW && source_of(w, j) == k
}

// Whether thing j is of a sort that thing k may name.
#[tactic(auto, using(base_words::proofs::PickLaws::picks), unfolding(crate::specs::Links::may_name))]
fn may_name(w: &[Note], k: Note, j: Note) -> bool
    ensures { result ≡ may_name w.now k j }
{
    let s = sort_of(w, k);
    if s == SEQUENCE_FLOW {
        return is_beside(w, k, j);
    }
    if s == MESSAGE_FLOW {
        return is_end(w, j);
    }
    if s == PARTICIPANT {
        return sort_of(w, j) == PROCESS;
    }
    is_exit(w, k, j)
}

fn is_meant(text: &[u8], w: &[Note], k: Note, v: &[u8], j: Note) -> bool
    ensures { result ≡ may_name w.now k j && has_id text.now v.now w.now j }
{
    may_name(w, k, j) && has_id(text, v, w, j)
}

fn meant(text: &[u8], w: &[Note], n: Note, k: Note, v: &[u8]) -> Note
    ensures { result ≡ meant text.now w.now n k v.now }
{
    (0..n).find(|&j| is_meant(text, w, k, v, j)).unwrap_or(0)
}

// The thing that an attribute of thing k names; 0 for none.
pub fn named(text: &[u8], w: &[Note], n: Note, k: Note, name: &[u8]) -> Note
    ensures { result ≡ named text.now w.now n k name.now }
{
    let a = attribute_of(text, w, k, name);
    let Some((from, to)) = a else {
        return 0;
    };
    meant(text, w, n, k, local_of(piece(text, from, to)))
}

fn is_node_in(w: &[Note], p: Note, j: Note) -> bool
    ensures { result ≡ is_node (sort w.now j) && eqb (within w.now j) p }
{
    is_node_at(w, j) && within_of(w, j) == p
}

fn is_node_named(text: &[u8], w: &[Note], p: Note, v: &[u8], j: Note) -> bool
    ensures { NotedAt text.now w.now j → result ≡ (is_node (sort w.now j) && eqb (within w.now j) p) && has_id text.now v.now w.now j }
{
    is_node_in(w, p, j) && has_noted_id(text, v, w, j)
}

// The first node of process p with an id; 0 for none.
fn node_named(text: &[u8], w: &[Note], n: Note, p: Note, v: &[u8]) -> Note
    ensures { Noted text.now w.now n → result ≡ or_none n (seek (λ j. (is_node (sort w.now j) && eqb (within w.now j) p) && has_id text.now v.now w.now j) n) }
{
    (0..n)
        .find(|&j| is_node_named(text, w, p, v, j))
        .unwrap_or(0)
}

fn is_end_named(text: &[u8], w: &[Note], v: &[u8], j: Note) -> bool
    ensures { NotedAt text.now w.now j → result ≡ (is_node (sort w.now j) || eqb (sort w.now j) participant) && has_id text.now v.now w.now j }
{
    is_end(w, j) && has_noted_id(text, v, w, j)
}

// The first node or participant with an id; 0 for none.
fn end_named(text: &[u8], w: &[Note], n: Note, v: &[u8]) -> Note
    ensures { Noted text.now w.now n → result ≡ or_none n (seek (λ j. (is_node (sort w.now j) || eqb (sort w.now j) participant) && has_id text.now v.now w.now j) n) }
{
    (0..n).find(|&j| is_end_named(text, w, v, j)).unwrap_or(0)
}

fn is_process_named(text: &[u8], w: &[Note], v: &[u8], j: Note) -> bool
    ensures { NotedAt text.now w.now j → result ≡ eqb (sort w.now j) process && has_id text.now v.now w.now j }
{
    sort_of(w, j) == PROCESS && has_noted_id(text, v, w, j)
}

// The first process with an id; 0 for none.
fn process_named(text: &[u8], w: &[Note], n: Note, v: &[u8]) -> Note
    ensures { Noted text.now w.now n → result ≡ or_none n (seek (λ j. eqb (sort w.now j) process && has_id text.now v.now w.now j) n) }
{
    (0..n)
        .find(|&j| is_process_named(text, w, v, j))
        .unwrap_or(0)
}

fn meant_noted(text: &[u8], w: &[Note], n: Note, k: Note, v: &[u8]) -> Note
    ensures { Noted text.now w.now n → result ≡ meant text.now w.now n k v.now }
{
    let s = sort_of(w, k);
    if s == SEQUENCE_FLOW {
        return node_named(text, w, n, within_of(w, k), v);
    }
    if s == MESSAGE_FLOW {
        return end_named(text, w, n, v);
    }
    if s == PARTICIPANT {
        return process_named(text, w, n, v);
    }
    meant(text, w, n, k, v)
}

// By the notes of ids where there are any.
fn meant_by(text: &[u8], w: &[Note], noted: bool, n: Note, k: Note, v: &[u8]) -> Note
    ensures { NotedIf noted text.now w.now n → result ≡ meant text.now w.now n k v.now }
{
    if noted {
        return meant_noted(text, w, n, k, v);
    }
    meant(text, w, n, k, v)
}

// The thing that an attribute of thing k names, by the notes of ids where there are any.
fn named_by(text: &[u8], w: &[Note], noted: bool, n: Note, k: Note, name: &[u8]) -> Note
    ensures { NotedIf noted text.now w.now n → result ≡ named text.now w.now n k name.now }
{
    let a = attribute_of(text, w, k, name);
    let Some((from, to)) = a else {
        return 0;
    };
    meant_by(text, w, noted, n, k, local_of(piece(text, from, to)))
}

#[tactic(auto, unfolding(crate::specs::Links::flow_joined))]
fn join(text: &[u8], w: &mut [Note], noted: bool, n: Note, k: Note)
    ensures { NotedIf noted text.now w.old n → w.new ≡ flow_joined text.now n k w.old }
{
    let from = named_by(text, w, noted, n, k, b"sourceRef");
    let to = named_by(text, w, noted, n, k, b"targetRef");
    set_source(w, k, from);
    set_target(w, k, to);
}

#[tactic(auto, unfolding(crate::specs::Links::owned))]
fn own(text: &[u8], w: &mut [Note], noted: bool, n: Note, k: Note)
    ensures { NotedIf noted text.now w.old n → w.new ≡ owned text.now n k w.old }
{
    let process = named_by(text, w, noted, n, k, b"processRef");
    set_source(w, k, process);
}

fn is_flow(w: &[Note], k: Note) -> bool
    ensures { result ≡ is_flow w.now k }
{
    let s = sort_of(w, k);
    s == SEQUENCE_FLOW || s == MESSAGE_FLOW
}

#[tactic(auto, using(base_words::proofs::PickLaws::picks), unfolding(crate::specs::Links::linked))]
fn link(text: &[u8], w: &mut [Note], noted: bool, n: Note, k: Note)
    ensures { NotedIf noted text.now w.old n → w.new ≡ linked text.now n k w.old }
{
    if is_flow(w, k) {
        join(text, w, noted, n, k);
        return;
    }
    if sort_of(w, k) == PARTICIPANT {
        own(text, w, noted, n, k);
    }
}

fn link_all(text: &[u8], w: &mut [Note], noted: bool, n: Note)
    ensures { NotedIf noted text.now w.old n → w.new ≡ links text.now n w.old }
{
    for k in 0..n {
        link(text, w, noted, n, k);
    }
}

// Each id is looked up once, noted in the things while they are linked.
fn link_noted(text: &[u8], w: &mut [Note], n: Note)
    ensures { all (is_free w.old) n ≡ true → w.new ≡ links text.now n w.old }
{
    note_ids(text, w, n);
    link_all(text, w, true, n);
    clear_ids(w, n);
}

// The ends of flows and the processes of participants, stored in the things; without notes where one would write over a target.
pub fn links(text: &[u8], w: &mut [Note], n: Note)
    ensures { w.new ≡ links text.now n w.old }
{
    if are_free(w, n) {
        link_noted(text, w, n);
        return;
    }
    link_all(text, w, false, n);
}
