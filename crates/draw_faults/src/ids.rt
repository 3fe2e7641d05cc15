// Ids that stand twice: R17.
ghost use Rattle.std.specs.Prelude.{◌&&◌, ◌≡◌};
ghost use Rattle.draw_links.specs.Links.{has_id};
ghost use Rattle.draw_faults.specs.Amiss.{is_read_sort, is_read, is_taken, is_repeated};

use base_bytes::piece;
use draw_links::{attribute_of, has_id};
use draw_things::things::{
    MESSAGE_FLOW, Note, PARTICIPANT, PROCESS, SEQUENCE_FLOW, is_node, sort_of,
};

#[tactic(auto, unfolding(crate::specs::Amiss::is_read_sort))]
fn is_read_sort(s: Note) -> bool
    ensures { result ≡ is_read_sort s }
{
    if is_node(s) {
        return true;
    }
    if s == PARTICIPANT {
        return true;
    }
    if s == MESSAGE_FLOW {
        return true;
    }
    s == PROCESS || s == SEQUENCE_FLOW
}

// Whether thing j is one of the elements read.
#[tactic(auto, unfolding(crate::specs::Amiss::is_read))]
pub fn is_read(w: &[Note], j: Note) -> bool
    ensures { result ≡ is_read w.now j }
{
    is_read_sort(sort_of(w, j))
}

fn is_read_as(text: &[u8], v: &[u8], w: &[Note], j: Note) -> bool
    ensures { result ≡ is_read w.now j && has_id text.now v.now w.now j }
{
    is_read(w, j) && has_id(text, v, w, j)
}

fn is_taken(text: &[u8], v: &[u8], w: &[Note], k: Note) -> bool
    ensures { result ≡ is_taken text.now v.now w.now k }
{
    (0..k).any(|j| is_read_as(text, v, w, j))
}

// Whether an element read before thing k has its id.
pub fn is_repeated(text: &[u8], w: &[Note], k: Note) -> bool
    ensures { result ≡ is_repeated text.now w.now k }
{
    if !is_read(w, k) {
        return false;
    }
    let a = attribute_of(text, w, k, b"id");
    let Some((from, to)) = a else {
        return false;
    };
    is_taken(text, piece(text, from, to), w, k)
}
