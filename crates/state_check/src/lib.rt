// Whether a state fits its table.
#![tactic(auto)]

ghost use Rattle.std.specs.Prelude.{◌≡◌, length, take};
ghost use Rattle.base_state.specs.Places.{state_words};
ghost use Rattle.base_words.specs.All.{all};
ghost use Rattle.base_words.specs.Counts.{pools, names};
ghost use Rattle.base_state.specs.Instances.{instances_of, queues_of};
ghost use Rattle.state_fits.specs.Fits.{instances_fit, shared_fits, queue_fits, state_fits};

use base_state::places::{INSTANCES_WORDS, SHARED, STATE_WORDS};
use base_words::counts::{NAMES, POOLS};
use base_words::{Word, tail};

pub mod instances;
pub mod marks;
pub mod messages;

use instances::{fields_fit, instances_fit};
use messages::queue_fits;

fn all_instances_fit(t: &[Word], s: &[Word]) -> bool
    ensures { result ≡ all (instances_fit t.now s.now) pools }
{
    (0..POOLS).all(|p| instances_fit(t, s, p))
}

#[tactic(auto, unfolding(state_fits::specs::Fits::shared_fits))]
fn shared_fits(s: &[Word]) -> bool
    ensures { result ≡ shared_fits s.now }
{
    fields_fit(tail(s, SHARED))
}

fn queues_fit(q: &[Word]) -> bool
    ensures { result ≡ all (queue_fits q.now) names }
{
    (0..NAMES).all(|m| queue_fits(q, m))
}

#[tactic(auto, unfolding(state_fits::specs::Fits::state_fits))]
fn both_fit(t: &[Word], s: &[Word], q: &[Word]) -> bool
    ensures { result ≡ state_fits t.now s.now q.now }
{
    all_instances_fit(t, s) && shared_fits(s) && queues_fit(q)
}

// The first n words.
fn head(s: &[Word], n: usize) -> &[Word]
    ensures { result.now ≡ take n s.now }
{
    &s[..n.min(s.len())]
}

// Whether a state fits a table; the length is in its type, and callers need it as a fact.
pub fn state_fits(t: &[Word], z: &[Word; STATE_WORDS]) -> bool
    ensures { (result ≡ state_fits t.now (instances_of z.now) (queues_of z.now)) × (length z.now ≡ state_words) }
{
    both_fit(t, head(z, INSTANCES_WORDS), tail(z, INSTANCES_WORDS))
}
