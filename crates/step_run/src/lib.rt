// The run: the first listed step, until none is accepted or the limit is used up.
#![tactic(auto)]

ghost use Rattle.std.specs.Prelude.{◌≡◌};
ghost use Rattle.base_state.specs.Instances.{instances_of, queues_of};
ghost use Rattle.step_take.specs.Settled.{settled};
ghost use Rattle.step_list.specs.Scanned.{scanned};
ghost use Rattle.step_run.specs.Run.{whether, ran_by};

use base_state::places::STATE_WORDS;
use base_table::places::TABLE_WORDS;
use base_words::Word;
use step_list::list_on;
use step_take::step_on;

// The run's limit and its count of steps: no values, so of a width of their own.
pub type Steps = u16;

// The number of steps taken, and 1 or 0 for whether one is still accepted.
#[derive(Clone, Copy)]
pub struct Ran {
    pub steps: Steps,
    pub left: Word,
}

// 1 or 0 for whether a step is accepted.
fn whether_left(t: &[Word; TABLE_WORDS], z: &[Word; STATE_WORDS]) -> Word
    ensures { result ≡ whether (scanned t.now (instances_of z.now) (queues_of z.now)) }
{
    let first = list_on(t, z, 0);
    if first.number == 0 { 1 } else { 0 }
}

// Takes the first listed step until none is accepted or the limit is used up.
pub fn run_on(t: &[Word; TABLE_WORDS], z: &mut [Word; STATE_WORDS], limit: Steps) -> Ran
    ensures { record { steps = result.steps; left = result.left; instances = instances_of z.new; queues = queues_of z.new } ≡ ran_by (scanned t.now) (settled t.now) limit (instances_of z.old) (queues_of z.old) }
{
    for steps in 0..limit {
        let first = list_on(t, z, 0);
        if first.number != 0 {
            return Ran { steps, left: 0 };
        }
        step_on(t, z, first.name);
    }
    Ran {
        steps: limit,
        left: whether_left(t, z),
    }
}
