// A named step and a post, on a whole state: the instances, then the queues.
#![tactic(auto)]

ghost use Rattle.std.specs.Prelude.{◌≡◌, eqb, length, ◌≤◌};
ghost use Rattle.base_kinds.specs.Moves.{move_of};
ghost use Rattle.base_table.specs.Table.{kind_in, mode_in};
ghost use Rattle.base_state.specs.Places.{instances_words};
ghost use Rattle.base_state.specs.Instances.{instances_of, queues_of};
ghost use Rattle.meaning.specs.Refusals.{first_refusal};
ghost use Rattle.meaning.specs.Step.{instance_of, shared_of, before, refusals};
ghost use Rattle.step_plan.specs.Plans.{site_at};
ghost use Rattle.step_take.specs.Parts.{settled_at};
ghost use Rattle.step_take.specs.Settled.{settled, posted, Done};

use base_kinds::moves::{Move, move_of};
use base_state::places::STATE_WORDS;
use base_table::places::TABLE_WORDS;
use base_table::{element_at, kind_in, limit_of, mode_in, pool_of};
use base_words::Word;
use base_words::numbers::NO_SUCH;
use meaning::{Answer, Name, Tuple};
use step_effects::refuse;
use step_refusals::numbers::is_there;

mod deciding;
mod halves;

use deciding::is_accepted_in;
use halves::{apply, copy_in, decide_in, made_in, post_in};

fn move_at(el: &[Word], phase: Word) -> Move
    ensures { result ≡ move_of (kind_in el.now) (mode_in el.now) phase }
{
    move_of(kind_in(el), mode_in(el), phase)
}

// The step of instance n.instance of pool p, which exists.
fn step_at(
    el: &[Word],
    z: &mut [Word],
    m: Move,
    p: Word,
    made: Word,
    limit: Word,
    n: Name,
) -> Answer
    requires { instances_words ≤ length z.old }
    ensures { Done (settled_at (site_at el.now (before m (instance_of (instances_of z.old) p n.instance) (shared_of (instances_of z.old))) m n.branch n.given made limit) p n.instance (instances_of z.old) (queues_of z.old)) result z.new }
{
    let g = n.given;
    let mut h = copy_in(z, m, p, n.instance);
    let plan = decide_in(el, &mut h, z, m, n.branch, g, made, limit);
    let number = plan.number;
    if number != 0 {
        return refuse(number);
    }
    apply(el, &h, z, m, p, n, made, plan)
}

fn step_in(t: &[Word], z: &mut [Word], n: Name) -> Answer
    requires { instances_words ≤ length z.old }
    ensures { Done (settled t.now (instances_of z.old) (queues_of z.old) n) result z.new }
{
    let p = pool_of(t, n.pool);
    let el = element_at(t, p, n.element);
    let m = move_at(el, n.phase);
    let made = made_in(z, p);
    if !is_there(t, el, m, p, made, n) {
        return refuse(NO_SUCH);
    }
    let limit = limit_of(t, p);
    step_at(el, z, m, p, made, limit, n)
}

// A named step: the number that refuses it, or what it consumes or sends. A step that is refused changes nothing.
pub fn step_on(t: &[Word; TABLE_WORDS], z: &mut [Word; STATE_WORDS], n: Name) -> Answer
    ensures { Done (settled t.now (instances_of z.old) (queues_of z.old) n) result z.new }
{
    step_in(t, z, n)
}

// Whether nothing refuses a named step.
pub fn is_accepted(t: &[Word; TABLE_WORDS], z: &[Word; STATE_WORDS], n: Name) -> bool
    ensures { result ≡ eqb (first_refusal (refusals t.now (instances_of z.now) (queues_of z.now) n)) 0 }
{
    is_accepted_in(t, z, n)
}

// A post: the number that refuses it, or 0.
pub fn post_on(z: &mut [Word; STATE_WORDS], name: Word, g: Tuple) -> Word
    ensures { (record { number = result; queues = queues_of z.new } ≡ posted (queues_of z.old) name g) × (instances_of z.new ≡ instances_of z.old) }
{
    post_in(z, name, g)
}
