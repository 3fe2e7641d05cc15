// What is amiss with flows: R17, R21, R23, R24.
ghost use Rattle.std.specs.Prelude.{true, ◌&&◌, ◌≡◌};
ghost use Rattle.draw_things.specs.Things.{place, within, source, target};
ghost use Rattle.draw_conditions.specs.Conditions.{condition_at};
ghost use Rattle.draw_faults.specs.Amiss.{is_loose, is_wrong_branch, is_wrong_form, is_wrong_condition, may_send, may_receive, is_wrong_message};
ghost use Rattle.draw_numbers.specs.Who.{is_of_kind, is_split};
ghost use Rattle.draw_faults.specs.Once.{Plain};

use super::pools::is_outside_by;
use base_kinds::moves::EVENT_BASED;
use base_words::Word;
use draw_conditions::{ABSENT, FOREIGN, condition_at};
use draw_kinds::counting::of_sort;
use draw_numbers::who::{is_of_kind, is_receiver, is_sender, is_split};
use draw_things::things::{
    BRANCH, CONDITION_EXPRESSION, MESSAGE_FLOW, Note, SEQUENCE_FLOW, place_of, source_of,
    target_of, within_of,
};

// Whether a sequence flow doesn't join two nodes of its process.
#[tactic(auto, unfolding(crate::specs::Amiss::is_loose))]
pub fn is_loose(w: &[Note], k: Note) -> bool
    ensures { result ≡ is_loose w.now k }
{
    if !of_sort(SEQUENCE_FLOW, w, k) {
        return false;
    }
    source_of(w, k) == 0 || target_of(w, k) == 0
}

fn source_is(c: Word, w: &[Note], k: Note) -> bool
    ensures { result ≡ is_of_kind c w.now (source w.now k) }
{
    is_of_kind(c, w, source_of(w, k))
}

fn target_is(c: Word, w: &[Note], k: Note) -> bool
    ensures { result ≡ is_of_kind c w.now (target w.now k) }
{
    is_of_kind(c, w, target_of(w, k))
}

// Whether a flow from an event gateway leads to no catch event of its own.
#[tactic(auto, unfolding(crate::specs::Amiss::is_wrong_branch))]
pub fn is_wrong_branch(w: &[Note], k: Note) -> bool
    ensures { result ≡ is_wrong_branch w.now k }
{
    if !of_sort(SEQUENCE_FLOW, w, k) {
        return false;
    }
    source_is(EVENT_BASED, w, k) && !target_is(BRANCH, w, k)
}

fn leaves_split(w: &[Note], k: Note) -> bool
    ensures { result ≡ is_split w.now (source w.now (within w.now k)) }
{
    is_split(w, source_of(w, within_of(w, k)))
}

#[tactic(auto, unfolding(crate::specs::Amiss::is_wrong_form))]
fn is_wrong_form(form: Word, w: &[Note], k: Note) -> bool
    ensures { result ≡ is_wrong_form form w.now k }
{
    if form == ABSENT {
        return false;
    }
    form == FOREIGN || !leaves_split(w, k)
}

fn form_of(text: &[u8], w: &[Note], k: Note) -> Word
    ensures { result ≡ (condition_at text.now (place w.now k)).form }
{
    let c = condition_at(text, place_of(w, k) as usize);
    c.form
}

// Whether a condition is not in our notation, or stands where none may.
#[tactic(auto, unfolding(crate::specs::Amiss::is_wrong_condition))]
pub fn is_wrong_condition(text: &[u8], w: &[Note], k: Note) -> bool
    ensures { result ≡ is_wrong_condition text.now w.now k }
{
    of_sort(CONDITION_EXPRESSION, w, k) && is_wrong_form(form_of(text, w, k), w, k)
}

#[tactic(auto, unfolding(crate::specs::Amiss::may_send))]
fn may_send(plain: bool, n: Note, text: &[u8], w: &[Note], j: Note) -> bool
    ensures { (plain ≡ true → Plain text.now w.now n) → result ≡ may_send text.now w.now j }
{
    is_sender(w, j) || is_outside_by(plain, n, text, w, j)
}

#[tactic(auto, unfolding(crate::specs::Amiss::may_receive))]
fn may_receive(plain: bool, n: Note, text: &[u8], w: &[Note], j: Note) -> bool
    ensures { (plain ≡ true → Plain text.now w.now n) → result ≡ may_receive text.now w.now j }
{
    is_receiver(w, j) || is_outside_by(plain, n, text, w, j)
}

fn has_right_ends(plain: bool, n: Note, text: &[u8], w: &[Note], k: Note) -> bool
    ensures { (plain ≡ true → Plain text.now w.now n) → result ≡ may_send text.now w.now (source w.now k) && may_receive text.now w.now (target w.now k) }
{
    may_send(plain, n, text, w, source_of(w, k)) && may_receive(plain, n, text, w, target_of(w, k))
}

// Whether a message flow has an end that doesn't send or receive, where it is known whether all participants are plain.
#[tactic(auto, unfolding(crate::specs::Amiss::is_wrong_message))]
pub fn is_wrong_message_by(plain: bool, n: Note, text: &[u8], w: &[Note], k: Note) -> bool
    ensures { (plain ≡ true → Plain text.now w.now n) → result ≡ is_wrong_message text.now w.now k }
{
    of_sort(MESSAGE_FLOW, w, k) && !has_right_ends(plain, n, text, w, k)
}

// Whether a message flow has an end that doesn't send or receive.
pub fn is_wrong_message(text: &[u8], w: &[Note], k: Note) -> bool
    ensures { result ≡ is_wrong_message text.now w.now k }
{
    is_wrong_message_by(false, 0, text, w, k)
}
