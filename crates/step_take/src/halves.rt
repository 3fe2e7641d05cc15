// The two parts of a state, lent one after the other.
ghost use Rattle.std.specs.Prelude.{◌≡◌, ◌++◌, length, ◌≤◌};
ghost use Rattle.base_state.specs.Places.{instances_words};
ghost use Rattle.base_state.specs.Instances.{instances_of, queues_of, made_count};
ghost use Rattle.meaning.specs.Step.{instance_of, shared_of, before};
ghost use Rattle.step_effects.specs.Effects.{stored_in, delivered_by};
ghost use Rattle.step_refusals.specs.Chain.{space_for};
ghost use Rattle.step_plan.specs.Plans.{site_at, Decided};
ghost use Rattle.step_take.specs.Parts.{Applied};
ghost use Rattle.step_take.specs.Settled.{posted};

use base_kinds::moves::Move;
use base_state::made_count;
use base_state::places::{COPY_WORDS, INSTANCES_WORDS};
use base_table::message_name;
use base_words::Word;
use base_words::numbers::{NOT_POSTABLE, QUEUE_FULL};
use meaning::{Answer, Name, Tuple};
use step_effects::copies::{commit, copy_before, made_after};
use step_effects::{answer_of, deliver};
use step_plan::{Plan, decide};
use step_queues::append;
use step_refusals::numbers::{has_place, has_space, is_postable};

// Reading.
pub fn made_in(z: &[Word], p: Word) -> Word
    requires { instances_words ≤ length z.now }
    ensures { result ≡ made_count (instances_of z.now) p }
{
    made_count(&z[..INSTANCES_WORDS], p)
}

pub fn copy_in(z: &[Word], m: Move, p: Word, i: Word) -> [Word; COPY_WORDS]
    requires { instances_words ≤ length z.now }
    ensures { result ≡ before m (instance_of (instances_of z.now) p i) (shared_of (instances_of z.now)) }
{
    copy_before(&z[..INSTANCES_WORDS], m, p, i)
}

pub fn decide_in(
    el: &[Word],
    h: &mut [Word],
    z: &[Word],
    m: Move,
    b: Word,
    g: Tuple,
    made: Word,
    limit: Word,
) -> Plan
    requires { instances_words ≤ length z.now }
    ensures { Decided (site_at el.now h.old m b g made limit) (queues_of z.now) result h.new }
{
    decide(el, h, m, b, g, made, limit, &z[INSTANCES_WORDS..])
}

pub fn has_space_in(z: &[Word], m: Move, name: Word) -> bool
    requires { instances_words ≤ length z.now }
    ensures { result ≡ space_for m (queues_of z.now) name }
{
    has_space(m, &z[INSTANCES_WORDS..], name)
}

// Writing.
fn commit_in(z: &mut [Word], p: Word, i: Word, h: &[Word], made: Word)
    requires { instances_words ≤ length z.old }
    ensures { z.new ≡ stored_in (instances_of z.old) p i h.now made ++ queues_of z.old }
{
    commit(&mut z[..INSTANCES_WORDS], p, i, h, made);
}

fn deliver_in(z: &mut [Word], m: Move, name: Word, g: Tuple, sent: Tuple)
    requires { instances_words ≤ length z.old }
    ensures { z.new ≡ instances_of z.old ++ delivered_by m name g sent (queues_of z.old) }
{
    deliver(&mut z[INSTANCES_WORDS..], m, name, g, sent);
}

// The writes of an accepted step, h being the instance after it, and its answer.
pub fn apply(
    el: &[Word],
    h: &[Word],
    z: &mut [Word],
    m: Move,
    p: Word,
    n: Name,
    made: Word,
    plan: Plan,
) -> Answer
    requires { instances_words ≤ length z.old }
    ensures { Applied el.now h.now z.old m p n made plan result z.new }
{
    let g = n.given;
    let expected = plan.expected;
    let sent = plan.sent;
    let name = message_name(el, n.branch);
    let made = made_after(m, made);
    commit_in(z, p, n.instance, h, made);
    deliver_in(z, m, name, g, sent);
    answer_of(m, name, expected, sent)
}

fn post_to(q: &mut [Word], name: Word, g: Tuple) -> Word
    ensures { record { number = result; queues = q.new } ≡ posted q.old name g }
{
    if !is_postable(name, g.length) {
        return NOT_POSTABLE;
    }
    if !has_place(q, name) {
        return QUEUE_FULL;
    }
    append(q, name, g);
    0
}

pub fn post_in(z: &mut [Word], name: Word, g: Tuple) -> Word
    requires { instances_words ≤ length z.old }
    ensures { (record { number = result; queues = queues_of z.new } ≡ posted (queues_of z.old) name g) × (instances_of z.new ≡ instances_of z.old) }
{
    post_to(&mut z[INSTANCES_WORDS..], name, g)
}
