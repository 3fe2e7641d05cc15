// Whether a step is accepted, with nothing applied.
ghost use Rattle.std.specs.Prelude.{◌≡◌, eqb, length, ◌≤◌};
ghost use Rattle.base_state.specs.Places.{instances_words};
ghost use Rattle.base_state.specs.Instances.{instances_of, queues_of};
ghost use Rattle.meaning.specs.Refusals.{first_refusal};
ghost use Rattle.meaning.specs.Step.{instance_of, shared_of, before, refusals_at, refusals};
ghost use Rattle.step_plan.specs.Plans.{site_at};

use super::halves::{copy_in, decide_in, has_space_in, made_in};
use super::move_at;
use base_kinds::moves::Move;
use base_table::{element_at, limit_of, message_name, pool_of};
use base_words::Word;
use meaning::Name;
use step_refusals::numbers::is_there;

// The number that refuses a step of instance n.instance of pool p, which exists.
fn number_at(el: &[Word], z: &[Word], m: Move, p: Word, made: Word, limit: Word, n: Name) -> Word
    requires { instances_words ≤ length z.now }
    ensures { result ≡ first_refusal (refusals_at (site_at el.now (before m (instance_of (instances_of z.now) p n.instance) (shared_of (instances_of z.now))) m n.branch n.given made limit) (queues_of z.now)) }
{
    let g = n.given;
    let mut h = copy_in(z, m, p, n.instance);
    let plan = decide_in(el, &mut h, z, m, n.branch, g, made, limit);
    plan.number
}

// The queue sent to is looked at before anything is worked out.
fn is_accepted_at(
    el: &[Word],
    z: &[Word],
    m: Move,
    p: Word,
    made: Word,
    limit: Word,
    n: Name,
) -> bool
    requires { instances_words ≤ length z.now }
    ensures { result ≡ eqb (first_refusal (refusals_at (site_at el.now (before m (instance_of (instances_of z.now) p n.instance) (shared_of (instances_of z.now))) m n.branch n.given made limit) (queues_of z.now))) 0 }
{
    let name = message_name(el, n.branch);
    has_space_in(z, m, name) && number_at(el, z, m, p, made, limit, n) == 0
}

pub fn is_accepted_in(t: &[Word], z: &[Word], n: Name) -> bool
    requires { instances_words ≤ length z.now }
    ensures { result ≡ eqb (first_refusal (refusals t.now (instances_of z.now) (queues_of z.now) n)) 0 }
{
    let p = pool_of(t, n.pool);
    let el = element_at(t, p, n.element);
    let m = move_at(el, n.phase);
    let made = made_in(z, p);
    is_there(t, el, m, p, made, n) && is_accepted_at(el, z, m, p, made, limit_of(t, p), n)
}
