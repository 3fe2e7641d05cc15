// What a step comes to, worked out on the copy of its instance.
#![tactic(auto)]

ghost use Rattle.std.specs.Prelude.{◌≡◌};
ghost use Rattle.meaning.specs.Changes.{taken, moved};
ghost use Rattle.meaning.specs.Step.{defined, sent, after_taking};
ghost use Rattle.step_plan.specs.Plans.{site_at, refused_plan, Matched, Prepared, Decided};

use base_kinds::moves::Move;
use base_words::Word;
use base_words::numbers::NOT_TRUE;
use meaning::{Evaluated, Tuple, empty_tuple};
use step_fields::{expect, message_of, receive, work};
use step_refusals::numbers::{number_after, number_before, number_of_fields};
use step_tokens::changes::{finish, take};
use step_tokens::is_below_limit;
use step_values::tuples::same_tuple;

// The number that refuses the step; where it is 0, the tuple expected and the tuple sent, else empty ones.
#[derive(Clone, Copy)]
pub struct Plan {
    pub number: Word,
    pub expected: Tuple,
    pub sent: Tuple,
}

fn refused_plan(number: Word) -> Plan
    ensures { result ≡ refused_plan number }
{
    Plan {
        number,
        expected: empty_tuple(),
        sent: empty_tuple(),
    }
}

// What a move does to tokens and counts, before room is looked at (18) and after it.
fn change_first(el: &[Word], m: Move, b: Word, h: &mut [Word])
    ensures { h.new ≡ taken el.now m b h.old }
{
    take(el, m, b, h);
}

fn change_last(el: &[Word], m: Move, b: Word, h: &mut [Word])
    ensures { h.new ≡ moved el.now m b h.old }
{
    finish(el, m, b, h);
}

// Binds, assignments, message, taking: whether the assignments and the message are defined, and the message.
fn work_out(el: &[Word], h: &mut [Word], m: Move, b: Word, g: Tuple) -> Evaluated
    ensures { (result ≡ record { defined = defined (site_at el.now h.old m b g 0 0); tuple = (sent (site_at el.now h.old m b g 0 0)).tuple }) × (h.new ≡ after_taking (site_at el.now h.old m b g 0 0)) }
{
    receive(el, m, b, g, h);
    let worked = work(el, m, h);
    let message = message_of(el, h, m, b);
    change_first(el, m, b, h);
    let defined = worked && message.defined;
    Evaluated {
        defined,
        tuple: message.tuple,
    }
}

// The same with the numbers 13 and 14, the tuple expected being defined.
fn match_fields(el: &[Word], h: &mut [Word], m: Move, b: Word, g: Tuple, expected: Tuple) -> Plan
    ensures { Matched (site_at el.now h.old m b g 0 0) expected result h.new }
{
    let worked = work_out(el, h, m, b, g);
    Plan {
        number: number_of_fields(m, worked.defined, same_tuple(expected, g)),
        expected,
        sent: worked.tuple,
    }
}

// 12 to 14, and the copy after the taking.
fn prepare(el: &[Word], h: &mut [Word], m: Move, b: Word, g: Tuple) -> Plan
    ensures { Prepared (site_at el.now h.old m b g 0 0) result h.new }
{
    let number = number_before(el, h, m, b);
    if number != 0 {
        return refused_plan(number);
    }
    let template = expect(el, h, m, b, g);
    let is_defined = template.defined;
    if !is_defined {
        return refused_plan(NOT_TRUE);
    }
    match_fields(el, h, m, b, g, template.tuple)
}

// 12 to 18, and the copy after all that the step does to it, or as far as it was worked on when refused.
pub fn decide(
    el: &[Word],
    h: &mut [Word],
    m: Move,
    b: Word,
    g: Tuple,
    made: Word,
    limit: Word,
    q: &[Word],
) -> Plan
    ensures { Decided (site_at el.now h.old m b g made limit) q.now result h.new }
{
    let plan = prepare(el, h, m, b, g);
    let early = plan.number;
    if early != 0 {
        return refused_plan(early);
    }
    let below = is_below_limit(m, made, limit);
    let last = number_after(el, h, m, b, g, below, q);
    if last != 0 {
        return refused_plan(last);
    }
    change_last(el, m, b, h);
    plan
}
