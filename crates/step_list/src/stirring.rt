// Whether an element could move in an instance: it has a token on an entry or a count that is not 0, or it makes the instance.
ghost use Rattle.std.specs.Prelude.{◌≡◌, ◌≤◌};
ghost use Rattle.base_words.specs.All.{all};
ghost use Rattle.base_words.specs.Words.{at, greatest};
ghost use Rattle.base_table.specs.Places.{entries_place, edge_place};
ghost use Rattle.base_table.specs.Table.{element_at, entry_count};
ghost use Rattle.base_state.specs.Instances.{instances_of, made_count, instance_at};
ghost use Rattle.step_list.specs.Scanned.{is_bare, idle, stirs, still};

use base_kinds::moves::START_RCV;
use base_kinds::{count_by, entries_of};
use base_state::{active_count, instance_at, made_count, ready_count, tokens_on};
use base_table::places::{
    ELEMENT_WORDS, ENTRIES, FIRST_EDGE, FIRST_ELEMENT, FIRST_POOL, KIND, POOL_WORDS, TASK,
};
use base_words::{Word, word};
use state_figures::is_finished;
use step_names::instances_in;

// Word k of element e of pool p: a place in the whole table, which needs no part of it.
fn word_in(t: &[Word], p: Word, e: Word, k: usize) -> Word
    requires { k ≤ edge_place entries_place greatest }
    ensures { result ≡ at (element_at t.now p e) k }
{
    let place = FIRST_POOL
        + POOL_WORDS * (p as usize)
        + FIRST_ELEMENT
        + ELEMENT_WORDS * (e as usize);
    word(t, place + k)
}

fn entries_at(t: &[Word], p: Word, e: Word) -> Word
    ensures { result ≡ entry_count (element_at t.now p e) }
{
    count_by(
        entries_of(word_in(t, p, e, KIND)),
        word_in(t, p, e, ENTRIES),
    )
}

fn is_bare(t: &[Word], p: Word, e: Word, h: &[Word], j: Word) -> bool
    ensures { result ≡ is_bare (element_at t.now p e) h.now j }
{
    tokens_on(h, word_in(t, p, e, ENTRIES + FIRST_EDGE + (j as usize))) == 0
}

fn are_bare(t: &[Word], p: Word, e: Word, h: &[Word]) -> bool
    ensures { result ≡ all (is_bare (element_at t.now p e) h.now) (entry_count (element_at t.now p e)) }
{
    let n = entries_at(t, p, e);
    (0..n).all(|j| is_bare(t, p, e, h, j))
}

#[tactic(auto, using(base_words::proofs::PickLaws::picks), unfolding(crate::specs::Scanned::idle))]
fn is_idle(t: &[Word], p: Word, e: Word, h: &[Word]) -> bool
    ensures { result ≡ idle (element_at t.now p e) h.now }
{
    let task = word_in(t, p, e, TASK);
    are_bare(t, p, e, h) && active_count(h, task) == 0 && ready_count(h, task) == 0
}

#[tactic(auto, using(base_words::proofs::PickLaws::picks), unfolding(crate::specs::Scanned::stirs))]
fn can_stir(t: &[Word], p: Word, e: Word, h: &[Word], i: Word, made: Word) -> bool
    ensures { result ≡ stirs (element_at t.now p e) h.now i made }
{
    if word_in(t, p, e, KIND) == START_RCV {
        return i == made;
    }
    i < made && !is_idle(t, p, e, h)
}

pub fn stirs_at(t: &[Word], z: &[Word], p: Word, i: Word, e: Word) -> bool
    ensures { result ≡ stirs (element_at t.now p e) (instance_at (instances_of z.now) p i) i (made_count (instances_of z.now) p) }
{
    let s = instances_in(z);
    let h = instance_at(s, p, i);
    let made = made_count(s, p);
    can_stir(t, p, e, h, i, made)
}

// Instance i of pool p is made, and has no token and no task count left.
#[tactic(auto, using(base_words::proofs::PickLaws::picks), unfolding(crate::specs::Scanned::still))]
pub fn is_still(z: &[Word], p: Word, i: Word) -> bool
    ensures { result ≡ still (instances_of z.now) p i }
{
    let s = instances_in(z);
    i < made_count(s, p) && is_finished(instance_at(s, p, i))
}
