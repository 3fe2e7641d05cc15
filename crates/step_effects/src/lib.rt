// What a step answers, and what it does to the queues.
#![tactic(auto)]

ghost use Rattle.std.specs.Prelude.{◌≡◌};
ghost use Rattle.meaning.specs.declared.Traffic.TheVariants.{Nothing};
ghost use Rattle.meaning.specs.Tuples.{empty};
ghost use Rattle.step_effects.specs.Effects.{delivered_by, answer_by};

use base_kinds::moves::{Move, ON};
use base_words::Word;
use meaning::{Answer, Traffic, Tuple, empty_tuple};
use step_queues::{append, oldest_of, remove};

pub mod copies;

// The answer of a step that a number refuses.
pub fn refuse(number: Word) -> Answer
    ensures { result ≡ record { number = number; traffic = Nothing; name = 0; tuple = empty } }
{
    Answer {
        number,
        traffic: Traffic::Nothing,
        name: 0,
        tuple: empty_tuple(),
    }
}

// The answer of an accepted step: what it consumed or sent.
#[tactic(auto, using(base_words::proofs::PickLaws::picks), unfolding(crate::specs::Effects::answer_by))]
pub fn answer_of(m: Move, name: Word, expected: Tuple, sent: Tuple) -> Answer
    ensures { result ≡ answer_by m name expected sent }
{
    if m.receives == ON {
        return Answer {
            number: 0,
            traffic: Traffic::Consumed,
            name,
            tuple: expected,
        };
    }
    if m.sends == ON {
        return Answer {
            number: 0,
            traffic: Traffic::Sent,
            name,
            tuple: sent,
        };
    }
    refuse(0)
}

// The message of an accepted step, consumed or sent.
#[tactic(auto, using(base_words::proofs::PickLaws::picks), unfolding(crate::specs::Effects::delivered_by))]
pub fn deliver(q: &mut [Word], m: Move, name: Word, g: Tuple, sent: Tuple)
    ensures { q.new ≡ delivered_by m name g sent q.old }
{
    if m.receives == ON {
        let k = oldest_of(q, name, g);
        remove(q, name, k);
    } else if m.sends == ON {
        append(q, name, sent);
    }
}
