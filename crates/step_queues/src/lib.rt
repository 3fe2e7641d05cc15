// The queues of a state: the oldest equal message, one more behind the others, one taken out.
#![tactic(auto)]

ghost use Rattle.std.specs.Prelude.{◌≡◌, ◌+◌, ◌-◌, ◌*◌, ◌≤◌, eqb};
ghost use Rattle.base_words.specs.All.{all};
ghost use Rattle.base_words.specs.Seek.{seek};
ghost use Rattle.base_words.specs.Writes.{writes};
ghost use Rattle.meaning.specs.Tuples.{value_of};
ghost use Rattle.base_words.specs.Words.{at, greatest};
ghost use Rattle.base_words.specs.Counts.{values};
ghost use Rattle.base_state.specs.Places.{slot_place, slot_words, values_in};
ghost use Rattle.meaning.specs.Queues.{message_count, message_at};
ghost use Rattle.step_queues.specs.Changes.{message_is, oldest, stored, one_more, extended, closed_up, removed};

use base_state::places::{FIRST_SLOT, FIRST_VALUE, QUEUE_WORDS, SLOT_WORDS};
use base_words::counts::{MESSAGES, VALUES};
use base_words::{Word, less_one, put, wide, word};
use meaning::{Tuple, empty_tuple};
use step_values::tuples::{same_tuple, value_of};

// How many messages queue m holds.
pub fn queued_in(q: &[Word], m: Word) -> Word
    ensures { result ≡ message_count q.now m }
{
    word(q, QUEUE_WORDS * (m as usize))
}

// The place of message k of queue m.
fn slot_place(m: Word, k: Word) -> usize
    ensures { result ≡ slot_place m k }
{
    QUEUE_WORDS * (m as usize) + FIRST_SLOT + SLOT_WORDS * (k as usize)
}

// Message k of queue m, oldest first.
pub fn message_at(q: &[Word], m: Word, k: Word) -> Tuple
    ensures { result ≡ message_at q.now m k }
{
    let i = slot_place(m, k);
    let v = i + FIRST_VALUE;
    Tuple {
        length: word(q, i),
        values: [word(q, v), word(q, v + 1), word(q, v + 2), word(q, v + 3)],
    }
}

// The n words from place i on are the first of v.
fn words_are(q: &[Word], i: usize, v: &[Word], n: Word) -> bool
    requires { i ≤ slot_place greatest greatest + values_in }
    ensures { result ≡ all (λ j. eqb (at q.now (i + j)) (at v.now j)) n }
{
    (0..wide(n)).all(|j| word(q, i + j) == word(v, j))
}

// Message k of queue m is equal to g. Longer ones than there are do not come.
fn message_is(q: &[Word], m: Word, g: Tuple, k: Word) -> bool
    ensures { result ≡ message_is q.now m g k }
{
    let n = g.length;
    let values = g.values;
    let i = slot_place(m, k);
    if word(q, i) != n {
        return false;
    }
    if VALUES < n {
        return same_tuple(message_at(q, m, k), g);
    }
    words_are(q, i + FIRST_VALUE, &values, n)
}

fn oldest_below(q: &[Word], m: Word, g: Tuple, n: Word) -> Word
    ensures { result ≡ seek (message_is q.now m g) n }
{
    (0..n).find(|&k| message_is(q, m, g, k)).unwrap_or(n)
}

// The place of the oldest message equal to g; the count where there is none.
pub fn oldest_of(q: &[Word], m: Word, g: Tuple) -> Word
    ensures { result ≡ oldest q.now m g }
{
    oldest_below(q, m, g, queued_in(q, m))
}

fn put_values(q: &mut [Word], m: Word, k: Word, g: Tuple)
    ensures { q.new ≡ writes (value_of g) q.old (slot_place m k + values_in) values }
{
    let i = slot_place(m, k) + FIRST_VALUE;
    for j in 0..VALUES {
        put(q, i + (j as usize), value_of(g, j));
    }
}

fn store(q: &mut [Word], m: Word, k: Word, g: Tuple)
    ensures { q.new ≡ stored q.old m k g }
{
    put(q, slot_place(m, k), g.length);
    put_values(q, m, k, g);
}

// One more, and the most stays.
fn one_more(n: Word) -> Word
    ensures { result ≡ one_more n }
{
    if n < MESSAGES { n + 1 } else { n }
}

// Puts a message behind the others.
pub fn append(q: &mut [Word], m: Word, g: Tuple)
    ensures { q.new ≡ extended q.old m g }
{
    let n = queued_in(q, m);
    let next = one_more(n);
    store(q, m, n, g);
    put(q, QUEUE_WORDS * (m as usize), next);
}

// The n messages behind message k, one slot up.
fn shift(q: &mut [Word], m: Word, k: Word, n: Word)
    ensures { q.new ≡ writes (λ j. at q.old (slot_place m k + j + slot_words)) q.old (slot_place m k) (slot_words * n) }
{
    let i = slot_place(m, k);
    let end = SLOT_WORDS * (n as usize);
    for j in 0..end {
        let w = word(q, i + j + SLOT_WORDS);
        put(q, i + j, w);
    }
}

fn close_up(q: &mut [Word], m: Word, k: Word)
    ensures { q.new ≡ closed_up q.old m k }
{
    let n = less_one(queued_in(q, m));
    if k < n {
        shift(q, m, k, n - k);
    }
}

// Takes message k out; the others keep their order.
pub fn remove(q: &mut [Word], m: Word, k: Word)
    ensures { q.new ≡ removed q.old m k }
{
    let n = less_one(queued_in(q, m));
    close_up(q, m, k);
    store(q, m, n, empty_tuple());
    put(q, QUEUE_WORDS * (m as usize), n);
}
