// What a move asks of the fields of an instance and does to them: guard, template, binds, assignments, message.
#![tactic(auto)]

ghost use Rattle.std.specs.Prelude.{◌≡◌, true};
ghost use Rattle.meaning.specs.Tuples.{empty};
ghost use Rattle.meaning.specs.Assignments.{Assigned};
ghost use Rattle.meaning.specs.Requirements.{granted};
ghost use Rattle.meaning.specs.Changes.{expected, received, worked, message_sent};

use base_kinds::moves::{Move, ON};
use base_words::Word;
use meaning::{Evaluated, Tuple, empty_tuple};
use step_expressions::assignments::assign;
use step_expressions::conditions::does_hold;
use step_expressions::templates::{bind, evaluate};

// 13: the guard, or the branch's condition, is true.
#[tactic(auto, using(base_words::proofs::PickLaws::picks), unfolding(meaning::specs::Requirements::granted))]
pub fn grants(el: &[Word], h: &[Word], m: Move, b: Word) -> bool
    ensures { result ≡ granted el.now h.now m b }
{
    m.asks != ON || does_hold(el, h, b)
}

fn no_values() -> Evaluated
    ensures { result ≡ record { defined = true; tuple = empty } }
{
    Evaluated {
        defined: true,
        tuple: empty_tuple(),
    }
}

// What is expected of the given values: the template worked out, or no values at all.
#[tactic(auto, using(base_words::proofs::PickLaws::picks), unfolding(meaning::specs::Changes::expected))]
pub fn expect(el: &[Word], h: &[Word], m: Move, b: Word, g: Tuple) -> Evaluated
    ensures { result ≡ expected el.now h.now m b g }
{
    if m.receives == ON {
        return evaluate(el, b, h, g);
    }
    no_values()
}

// The binds of a move that receives.
#[tactic(auto, using(base_words::proofs::PickLaws::picks), unfolding(meaning::specs::Changes::received))]
pub fn receive(el: &[Word], m: Move, b: Word, g: Tuple, h: &mut [Word])
    ensures { h.new ≡ received el.now h.old m b g }
{
    if m.receives == ON {
        bind(el, b, g, h);
    }
}

// The assignments of a move that assigns; whether all of them were defined.
#[tactic(auto, using(base_words::proofs::PickLaws::picks), unfolding(meaning::specs::Changes::worked))]
pub fn work(el: &[Word], m: Move, h: &mut [Word]) -> bool
    ensures { record { defined = result; instance = h.new } ≡ worked el.now h.old m }
{
    if m.assigns == ON {
        return assign(el, h);
    }
    true
}

// The message of a move that sends.
#[tactic(auto, using(base_words::proofs::PickLaws::picks), unfolding(meaning::specs::Changes::message_sent))]
pub fn message_of(el: &[Word], h: &[Word], m: Move, b: Word) -> Evaluated
    ensures { result ≡ message_sent el.now h.now m b }
{
    if m.sends == ON {
        return evaluate(el, b, h, empty_tuple());
    }
    no_values()
}
