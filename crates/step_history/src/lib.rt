// What is counted in a history of calls: of a name and a tuple, how many messages were posted, sent, consumed, and how many are queued.
#![tactic(auto)]

ghost use Rattle.std.specs.Prelude.{◌≡◌, ◌≤◌};
ghost use Rattle.base_words.specs.Sum.{one_if};
ghost use Rattle.meaning.specs.Messages.{times};
ghost use Rattle.meaning.specs.Queues.{messages_of};
ghost use Rattle.step_history.specs.History.{is_message, step_gave, post_gave, posts, sends, consumes, nothing_moved, moved_by, entry_noted, queued, balances};

use base_state::places::INSTANCES_WORDS;
use base_words::numbers::ACCEPTED;
use base_words::{Word, tail};
use meaning::{Answer, Name, Traffic, Tuple, empty_tuple};
use step_queues::{message_at, queued_in};
use step_values::tuples::same_tuple;

#[derive(Clone, Copy)]
pub struct Accounts {
    pub posted: usize,
    pub sent: usize,
    pub consumed: usize,
    pub queued: usize,
}

// The message that an entry moved: posted, sent or consumed.
#[derive(Clone, Copy)]
pub struct Moved {
    pub some: bool,
    pub name: Word,
    pub tuple: Tuple,
}

// What one entry counts for, 1 or 0 each, and what it moved.
#[derive(Clone, Copy)]
pub struct Noted {
    pub posted: usize,
    pub sent: usize,
    pub consumed: usize,
    pub moved: Moved,
}

fn one_if(b: bool) -> usize
    ensures { (result ≡ one_if b) × (result ≤ 1) }
{
    if b { 1 } else { 0 }
}

// Whether it is the message that is counted.
#[tactic(auto, using(base_words::proofs::PickLaws::picks), unfolding(crate::specs::History::is_message))]
fn is_message(m: Word, g: Tuple, name: Word, tuple: Tuple) -> bool
    ensures { result ≡ is_message m g name tuple }
{
    name == m && same_tuple(tuple, g)
}

#[tactic(auto, using(base_words::proofs::PickLaws::picks), unfolding(crate::specs::History::posts, crate::specs::History::is_accepted, crate::specs::History::as_posted))]
fn posts(m: Word, g: Tuple, name: Word, tuple: Tuple, number: Word) -> bool
    ensures { result ≡ posts m g (post_gave name tuple number) }
{
    number == ACCEPTED && is_message(m, g, name, tuple)
}

fn sends(m: Word, g: Tuple, n: Name, a: Answer) -> bool
    ensures { result ≡ sends m g (step_gave n a) }
{
    if a.number != ACCEPTED {
        return false;
    }
    let traffic = a.traffic;
    let Traffic::Sent = traffic else {
        return false;
    };
    let tuple = a.tuple;
    is_message(m, g, a.name, tuple)
}

fn consumes(m: Word, g: Tuple, n: Name, a: Answer) -> bool
    ensures { result ≡ consumes m g (step_gave n a) }
{
    if a.number != ACCEPTED {
        return false;
    }
    let traffic = a.traffic;
    let Traffic::Consumed = traffic else {
        return false;
    };
    let tuple = a.tuple;
    is_message(m, g, a.name, tuple)
}

pub fn nothing_moved() -> Moved
    ensures { result ≡ nothing_moved }
{
    Moved {
        some: false,
        name: 0,
        tuple: empty_tuple(),
    }
}

fn moved_by_step(n: Name, a: Answer) -> Moved
    ensures { result ≡ moved_by (step_gave n a) }
{
    if a.number != ACCEPTED {
        return nothing_moved();
    }
    let traffic = a.traffic;
    let Traffic::Nothing = traffic else {
        let tuple = a.tuple;
        return Moved {
            some: true,
            name: a.name,
            tuple,
        };
    };
    nothing_moved()
}

fn moved_by_post(m: Word, g: Tuple, number: Word) -> Moved
    ensures { result ≡ moved_by (post_gave m g number) }
{
    if number != ACCEPTED {
        return nothing_moved();
    }
    Moved {
        some: true,
        name: m,
        tuple: g,
    }
}

pub fn note_step(m: Word, g: Tuple, n: Name, a: Answer) -> Noted
    ensures { (result ≡ entry_noted m g (step_gave n a)) × (result.posted ≤ 1) × (result.sent ≤ 1) × (result.consumed ≤ 1) }
{
    let sent = one_if(sends(m, g, n, a));
    let consumed = one_if(consumes(m, g, n, a));
    let moved = moved_by_step(n, a);
    Noted {
        posted: 0,
        sent,
        consumed,
        moved,
    }
}

pub fn note_post(m: Word, g: Tuple, name: Word, tuple: Tuple, number: Word) -> Noted
    ensures { (result ≡ entry_noted m g (post_gave name tuple number)) × (result.posted ≤ 1) × (result.sent ≤ 1) × (result.consumed ≤ 1) }
{
    let posted = one_if(posts(m, g, name, tuple, number));
    let moved = moved_by_post(name, tuple, number);
    Noted {
        posted,
        sent: 0,
        consumed: 0,
        moved,
    }
}

// How many messages of queue m are equal to g.
fn times_in(q: &[Word], m: Word, g: Tuple) -> usize
    ensures { result ≡ times g (messages_of q.now m) }
{
    (0..queued_in(q, m))
        .filter(|&k| same_tuple(message_at(q, m, k), g))
        .count()
}

pub fn queued_of(z: &[Word], m: Word, g: Tuple) -> usize
    ensures { result ≡ queued m g z.now }
{
    times_in(tail(z, INSTANCES_WORDS), m, g)
}

// Posted and sent against queued and consumed, with no sum that could pass the greatest number.
pub fn balances(a: Accounts) -> bool
    ensures { result ≡ balances a }
{
    if a.queued <= a.posted {
        a.sent <= a.consumed && a.posted - a.queued == a.consumed - a.sent
    } else {
        a.consumed <= a.sent && a.queued - a.posted == a.sent - a.consumed
    }
}
