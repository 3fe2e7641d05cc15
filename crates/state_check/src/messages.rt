// Whether a queue fits: its messages, and 0 behind their values and behind the last.
ghost use Rattle.std.specs.Prelude.{◌≡◌, ◌-◌, ◌*◌, ◌≤◌, drop};
ghost use Rattle.base_words.specs.All.{all};
ghost use Rattle.base_words.specs.Words.{at};
ghost use Rattle.base_words.specs.Counts.{values, messages};
ghost use Rattle.check_limits.specs.Limits.{zeros};
ghost use Rattle.meaning.specs.Queues.{value_at};
ghost use Rattle.base_state.specs.Places.{slot_place, slot_words};
ghost use Rattle.state_fits.specs.Fits.{slot_fits, queue_fits};
ghost use Rattle.state_check.specs.Places.{shown_by};

use base_state::places::{FIRST_SLOT, FIRST_VALUE, QUEUE_WORDS, SLOT_WORDS};
use base_words::counts::{MESSAGES, VALUES};
use base_words::{Word, tail, word};
use check_limits::zeros::{less, zero_words};
use step_queues::queued_in;

// Value j of message k of queue m, as it stands there.
fn value_at(q: &[Word], m: Word, k: Word, j: Word) -> Word
    ensures { result ≡ value_at q.now m k j }
{
    word(
        q,
        QUEUE_WORDS * (m as usize)
            + FIRST_SLOT
            + SLOT_WORDS * (k as usize)
            + FIRST_VALUE
            + (j as usize),
    )
}

// How many values message k of queue m has.
fn length_at(q: &[Word], m: Word, k: Word) -> Word
    ensures { result ≡ at q.now (slot_place m k) }
{
    word(
        q,
        QUEUE_WORDS * (m as usize) + FIRST_SLOT + SLOT_WORDS * (k as usize),
    )
}

// Whether 0 stands behind the first n values of message k.
fn values_fit(q: &[Word], m: Word, k: Word, n: Word) -> bool
    requires { n ≤ values }
    ensures { result ≡ all (shown_by q.now m k n) values }
{
    for j in n..VALUES {
        if value_at(q, m, k, j) != 0 {
            return false;
        }
    }
    true
}

fn message_fits(q: &[Word], m: Word, k: Word) -> bool
    ensures { result ≡ slot_fits q.now m k }
{
    let n = length_at(q, m, k);
    n <= VALUES && values_fit(q, m, k, n)
}

fn messages_fit(q: &[Word], m: Word, n: Word) -> bool
    ensures { result ≡ all (slot_fits q.now m) n }
{
    (0..n).all(|k| message_fits(q, m, k))
}

// The words behind the first n messages.
fn rest_zero(q: &[Word], m: Word, n: Word) -> bool
    ensures { result ≡ zeros (drop (slot_place m n) q.now) (slot_words * (messages - n)) }
{
    let rest = less(MESSAGES, n as usize);
    zero_words(
        tail(
            q,
            QUEUE_WORDS * (m as usize) + FIRST_SLOT + SLOT_WORDS * (n as usize),
        ),
        SLOT_WORDS * (rest as usize),
    )
}

#[tactic(auto, unfolding(state_fits::specs::Fits::queue_fits))]
pub fn queue_fits(q: &[Word], m: Word) -> bool
    ensures { result ≡ queue_fits q.now m }
{
    let n = queued_in(q, m);
    n <= MESSAGES && messages_fit(q, m, n) && rest_zero(q, m, n)
}
