// Whether the instances of a pool fit: h is the words of one, u the places that it may use.
ghost use Rattle.std.specs.Prelude.{◌≡◌, ◌-◌, ◌*◌, ◌≤◌, length};
ghost use Rattle.base_words.specs.All.{all};
ghost use Rattle.base_words.specs.Counts.{instances};
ghost use Rattle.check_limits.specs.Bits.{bits_of};
ghost use Rattle.check_limits.specs.Limits.{zeros};
ghost use Rattle.base_state.specs.Instances.{instance_at};
ghost use Rattle.base_state.specs.Places.{defined_place, instance_words};
ghost use Rattle.state_fits.specs.Fits.{usable, place_fits, field_fits, fields_fit, instance_fits, instances_fit};
ghost use Rattle.state_check.specs.Places.{excess_of, excess_at};

use super::marks::mark_pool;
use base_state::places::{DEFINED, INSTANCE_WORDS};
use base_state::{instance_at, made_count};
use base_words::counts::{COUNT_MOST, FIELDS, INSTANCES};
use base_words::{Word, tail, word};
use check_limits::zeros::{less, zero_words};
use state_fits::pools::made_fits;

// 0 where a count n may stand at a place of which u says whether it may be used.
#[tactic(auto, using(base_words::proofs::PickLaws::picks), unfolding(crate::specs::Places::excess_of))]
fn excess(u: Word, n: Word) -> Word
    ensures { result ≡ excess_of u n }
{
    if u == 1 {
        Word::from(n > COUNT_MOST)
    } else {
        n
    }
}

#[tactic(auto, using(base_words::proofs::PickLaws::picks), unfolding(state_fits::specs::Fits::field_fits))]
fn field_fits(f: &[Word], d: Word) -> bool
    ensures { result ≡ field_fits f.now d }
{
    let defined = word(f, 2 * (d as usize));
    if defined == 0 {
        word(f, 2 * (d as usize) + 1) == 0
    } else {
        defined == 1
    }
}

// The first n places put together: a loop with one way out, as `check_limits::zeros` has it.
fn excess_below(u: &[Word; DEFINED], h: &[Word], n: usize) -> Word
    requires { (n ≤ length h.now) × (n ≤ defined_place 0) }
    ensures { result ≡ bits_of (excess_at u.now h.now) n }
{
    let mut bits: Word = 0;
    for k in 0..n {
        bits |= excess(u[k], h[k]);
    }
    bits
}

fn counts_fit(u: &[Word; DEFINED], h: &[Word]) -> bool
    ensures { result ≡ all (place_fits u.now h.now) (defined_place 0) }
{
    excess_below(u, h, DEFINED.min(h.len())) == 0
}

// The fields of an instance, or the stores, from the first one on.
pub fn fields_fit(f: &[Word]) -> bool
    ensures { result ≡ fields_fit f.now }
{
    (0..FIELDS).all(|d| field_fits(f, d))
}

#[tactic(auto, unfolding(state_fits::specs::Fits::instance_fits))]
fn instance_fits(u: &[Word; DEFINED], h: &[Word]) -> bool
    ensures { result ≡ instance_fits u.now h.now }
{
    counts_fit(u, h) && fields_fit(tail(h, DEFINED))
}

// The first n instances of a pool, and the words of the others.
fn first_fit(u: &[Word; DEFINED], s: &[Word], p: Word, n: Word) -> bool
    ensures { result ≡ all (λ i. instance_fits u.now (instance_at s.now p i)) n }
{
    (0..n).all(|i| instance_fits(u, instance_at(s, p, i)))
}

fn rest_zero(s: &[Word], p: Word, n: Word) -> bool
    ensures { result ≡ zeros (instance_at s.now p n) (instance_words * (instances - n)) }
{
    let rest = less(INSTANCES, n as usize);
    zero_words(instance_at(s, p, n), INSTANCE_WORDS * (rest as usize))
}

// The first n instances of a pool, by the places that its elements use.
fn made_ones_fit(t: &[Word], s: &[Word], p: Word, n: Word) -> bool
    ensures { result ≡ all (λ i. instance_fits (usable t.now p) (instance_at s.now p i)) n }
{
    let mut u: [Word; DEFINED] = [0; DEFINED];
    mark_pool(&mut u, t, p);
    first_fit(&u, s, p, n)
}

// The instances of a pool.
#[tactic(auto, unfolding(state_fits::specs::Fits::instances_fit))]
pub fn instances_fit(t: &[Word], s: &[Word], p: Word) -> bool
    ensures { result ≡ instances_fit t.now s.now p }
{
    let made = made_count(s, p);
    made_fits(t, p, made) && made_ones_fit(t, s, p, made) && rest_zero(s, p, made)
}
