// Who is who in a drawing: pools, nodes of a kind, splits, senders and receivers.
ghost use Rattle.std.specs.Prelude.{◌≡◌};
ghost use Rattle.draw_numbers.specs.Who.{has_participants, is_pool, is_of_kind, is_split, sends, receives, is_sender, is_receiver, has_pool};

use base_kinds::moves::{END_SND, INTER_RCV, INTER_SND, START_RCV, TASK_RCV, TASK_SND, XOR_SPLIT};
use base_words::Word;
use draw_kinds::counting::of_sort;
use draw_links::is_node_at;
use draw_things::things::{BRANCH, Note, PARTICIPANT, PROCESS, kind_of_thing, source_of};

// Whether thing j is a node of a kind.
#[tactic(auto, unfolding(crate::specs::Who::is_of_kind))]
pub fn is_of_kind(c: Word, w: &[Note], j: Note) -> bool
    ensures { result ≡ is_of_kind c w.now j }
{
    is_node_at(w, j) && kind_of_thing(w, j) == c
}

// Whether thing k is an exclusive split.
#[tactic(auto, unfolding(crate::specs::Who::is_split))]
pub fn is_split(w: &[Note], k: Note) -> bool
    ensures { result ≡ is_split w.now k }
{
    is_of_kind(XOR_SPLIT, w, k)
}

#[tactic(auto, unfolding(crate::specs::Who::sends))]
fn sends(c: Word) -> bool
    ensures { result ≡ sends c }
{
    c == TASK_SND || c == INTER_SND || c == END_SND
}

#[tactic(auto, unfolding(crate::specs::Who::receives))]
fn receives(c: Word) -> bool
    ensures { result ≡ receives c }
{
    c == TASK_RCV || c == START_RCV || c == INTER_RCV || c == BRANCH
}

// Whether thing j sends a message.
#[tactic(auto, unfolding(crate::specs::Who::is_sender))]
pub fn is_sender(w: &[Note], j: Note) -> bool
    ensures { result ≡ is_sender w.now j }
{
    is_node_at(w, j) && sends(kind_of_thing(w, j))
}

// Whether thing j receives a message.
#[tactic(auto, unfolding(crate::specs::Who::is_receiver))]
pub fn is_receiver(w: &[Note], j: Note) -> bool
    ensures { result ≡ is_receiver w.now j }
{
    is_node_at(w, j) && receives(kind_of_thing(w, j))
}

// Whether there is a participant.
pub fn has_participants(w: &[Note], n: Note) -> bool
    ensures { result ≡ has_participants w.now n }
{
    (0..n).any(|j| of_sort(PARTICIPANT, w, j))
}

// Whether thing k is a pool: a participant with a process or, where there are no participants, a process.
#[tactic(auto, using(base_words::proofs::PickLaws::picks), unfolding(crate::specs::Who::is_pool))]
pub fn is_pool(owned: bool, w: &[Note], k: Note) -> bool
    ensures { result ≡ is_pool owned w.now k }
{
    if owned {
        of_sort(PARTICIPANT, w, k) && source_of(w, k) != 0
    } else {
        of_sort(PROCESS, w, k)
    }
}

// Whether there is a pool.
pub fn has_pool(owned: bool, w: &[Note], n: Note) -> bool
    ensures { result ≡ has_pool owned w.now n }
{
    (0..n).any(|j| is_pool(owned, w, j))
}
