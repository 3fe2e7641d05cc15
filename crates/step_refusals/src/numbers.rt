// The numbers that refuse a step, in the order they are looked at.
ghost use Rattle.std.specs.Prelude.{◌≡◌, ◌&&◌, ◌||◌, eqb, ltb, leb, length};
ghost use Rattle.base_words.specs.Counts.{messages, names, values};
ghost use Rattle.base_kinds.specs.Moves.{on};
ghost use Rattle.base_table.specs.Table.{message_name};
ghost use Rattle.meaning.specs.Messages.{has};
ghost use Rattle.meaning.specs.Queues.{messages_of};
ghost use Rattle.meaning.specs.Refusals.{first_refusal};
ghost use Rattle.step_refusals.specs.Chain.{is_in_table, offered, before_fields, of_fields, queued_for, space_for, of_queues};

use base_kinds::moves::{Move, ON};
use base_table::{element_count, message_name, pool_count};
use base_words::Word;
use base_words::counts::{MESSAGES, NAMES, VALUES};
use base_words::numbers::{
    ACCEPTED, LIMIT_REACHED, NOT_MATCHING, NOT_PERMITTED, NOT_QUEUED, NOT_TRUE, QUEUE_FULL,
    WOULD_PASS,
};
use meaning::{Name, Tuple};
use step_fields::grants;
use step_queues::{oldest_of, queued_in};
use step_tokens::permission::{is_roomy, permits};
use step_tokens::{branch_count, is_named};

// The number of a step that nothing refuses.
const ALL_HOLD: Word = ACCEPTED;

// 11, of the table.
#[tactic(auto, using(base_words::proofs::PickLaws::picks), unfolding(crate::specs::Chain::is_in_table))]
fn is_placed(t: &[Word], p: Word, e: Word) -> bool
    ensures { result ≡ is_in_table t.now p e }
{
    p < pool_count(t) && e < element_count(t, p)
}

// 11, of the move.
#[tactic(auto, using(base_words::proofs::PickLaws::picks), unfolding(crate::specs::Chain::offered))]
fn is_offered(el: &[Word], m: Move, b: Word, i: Word, made: Word) -> bool
    ensures { result ≡ offered el.now m b i made }
{
    m.kind != 0 && b < branch_count(el, m) && is_named(m, i, made)
}

// 11: there is such a pool, element, phase, branch and instance.
pub fn is_there(t: &[Word], el: &[Word], m: Move, p: Word, made: Word, n: Name) -> bool
    ensures { result ≡ is_in_table t.now p n.element && offered el.now m n.branch n.instance made }
{
    is_placed(t, p, n.element) && is_offered(el, m, n.branch, n.instance, made)
}

// 12, and 13 of the guard or the condition.
pub fn number_before(el: &[Word], h: &[Word], m: Move, b: Word) -> Word
    ensures { result ≡ first_refusal (before_fields el.now h.now m b) }
{
    if !permits(el, h, m, b) {
        return NOT_PERMITTED;
    }
    if !grants(el, h, m, b) {
        return NOT_TRUE;
    }
    ALL_HOLD
}

fn receives_or(m: Move, a: bool) -> bool
    ensures { result ≡ eqb m.receives on || a }
{
    m.receives == ON || a
}

// 13, 14, 13 of the fields: where a message is received, its values come first.
pub fn number_of_fields(m: Move, defined: bool, matches: bool) -> Word
    ensures { result ≡ first_refusal (of_fields m defined matches) }
{
    if !receives_or(m, defined) {
        return NOT_TRUE;
    }
    if !matches {
        return NOT_MATCHING;
    }
    if !defined {
        return NOT_TRUE;
    }
    ALL_HOLD
}

fn is_present(q: &[Word], name: Word, g: Tuple) -> bool
    ensures { result ≡ has g (messages_of q.now name) }
{
    oldest_of(q, name, g) < queued_in(q, name)
}

pub fn has_place(q: &[Word], name: Word) -> bool
    ensures { result ≡ ltb (length (messages_of q.now name)) messages }
{
    queued_in(q, name) < MESSAGES
}

// 15: the message received is queued.
#[tactic(auto, using(base_words::proofs::PickLaws::picks), unfolding(crate::specs::Chain::queued_for))]
fn is_queued(m: Move, q: &[Word], name: Word, g: Tuple) -> bool
    ensures { result ≡ queued_for m q.now name g }
{
    m.receives != ON || is_present(q, name, g)
}

// 17: the queue sent to holds fewer than it may.
#[tactic(auto, using(base_words::proofs::PickLaws::picks), unfolding(crate::specs::Chain::space_for))]
pub fn has_space(m: Move, q: &[Word], name: Word) -> bool
    ensures { result ≡ space_for m q.now name }
{
    m.sends != ON || has_place(q, name)
}

// 15 to 18, of the instance after the taking.
pub fn number_after(
    el: &[Word],
    h: &[Word],
    m: Move,
    b: Word,
    g: Tuple,
    below: bool,
    q: &[Word],
) -> Word
    ensures { result ≡ first_refusal (of_queues el.now h.now m b (queued_for m q.now (message_name el.now b) g) below (space_for m q.now (message_name el.now b))) }
{
    let name = message_name(el, b);
    if !is_queued(m, q, name, g) {
        return NOT_QUEUED;
    }
    if !below {
        return LIMIT_REACHED;
    }
    if !has_space(m, q, name) {
        return QUEUE_FULL;
    }
    if !is_roomy(el, h, m, b) {
        return WOULD_PASS;
    }
    ALL_HOLD
}

// 19: the name is one of those that there are, and the values are not too many.
pub fn is_postable(name: Word, length: Word) -> bool
    ensures { result ≡ ltb name names && leb length values }
{
    name < NAMES && length <= VALUES
}
