// What a step sees of the instances of a state, copied out of them, and stored back.
ghost use Rattle.std.specs.Prelude.{◌≡◌, ◌+◌, ◌≤◌, true, false, eqb, length};
ghost use Rattle.base_words.specs.Words.{at, greatest};
ghost use Rattle.base_words.specs.Writes.{writes};
ghost use Rattle.base_kinds.specs.Moves.{making};
ghost use Rattle.base_state.specs.Places.{instance_place, instance_words, copy_words};
ghost use Rattle.meaning.specs.Step.{instance_of, shared_of, before};
ghost use Rattle.step_effects.specs.Effects.{stored_in, made_by};

use base_kinds::moves::{MAKES, Move};
use base_state::places::{
    COPY_WORDS, FIRST_INSTANCE, INSTANCE_WORDS, POOL_INSTANCES, SHARED, SHARED_WORDS, STORE_WORDS,
};
use base_words::counts::COUNT_MOST;
use base_words::{Word, put, wide, word};

// Copies n words of s from a place on to a place of z, all of them inside.
fn move_inside(s: &[Word], from: usize, z: &mut [Word], to: usize, n: usize)
    requires { (from + n ≤ length s.now) × (to + n ≤ length z.old) }
    ensures { z.new ≡ writes (λ k. at s.now (from + k)) z.old to n }
{
    for k in 0..n {
        z[to + k] = s[from + k];
    }
}

// The same where some may stand outside.
fn move_across(s: &[Word], from: usize, z: &mut [Word], to: usize, n: usize)
    requires { (from ≤ instance_place greatest greatest) × (to ≤ instance_place greatest greatest) × (n ≤ copy_words) }
    ensures { z.new ≡ writes (λ k. at s.now (from + k)) z.old to n }
{
    for k in 0..n {
        put(z, to + k, word(s, from + k));
    }
}

fn move_words(s: &[Word], from: usize, z: &mut [Word], to: usize, n: usize)
    requires { (from ≤ instance_place greatest greatest) × (to ≤ instance_place greatest greatest) × (n ≤ copy_words) }
    ensures { z.new ≡ writes (λ k. at s.now (from + k)) z.old to n }
{
    if from + n <= s.len() && to + n <= z.len() {
        move_inside(s, from, z, to, n);
    } else {
        move_across(s, from, z, to, n);
    }
}

// The words of an instance, to the first of h; where a move makes the instance, h is left as it is.
fn copy_own(s: &[Word], m: Move, p: Word, i: Word, h: &mut [Word])
    ensures { (eqb m.also making ≡ true → h.new ≡ h.old) × (eqb m.also making ≡ false → h.new ≡ writes (λ k. at s.now (instance_place p i + k)) h.old 0 instance_words) }
{
    if m.also == MAKES {
        return;
    }
    let from = FIRST_INSTANCE + POOL_INSTANCES * (p as usize) + INSTANCE_WORDS * (i as usize);
    move_words(s, from, h, 0, INSTANCE_WORDS);
}

// What a move sees, an instance and behind it what all share: where it makes the instance, all words of that are 0.
pub fn copy_before(s: &[Word], m: Move, p: Word, i: Word) -> [Word; COPY_WORDS]
    ensures { result ≡ before m (instance_of s.now p i) (shared_of s.now) }
{
    let mut h: [Word; COPY_WORDS] = [0; COPY_WORDS];
    copy_own(s, m, p, i, &mut h);
    move_words(s, SHARED, &mut h, INSTANCE_WORDS, SHARED_WORDS);
    h
}

// Stores an instance and the stores behind it, and how many its pool has made.
pub fn commit(s: &mut [Word], p: Word, i: Word, h: &[Word], made: Word)
    ensures { s.new ≡ stored_in s.old p i h.now made }
{
    let to = FIRST_INSTANCE + POOL_INSTANCES * (p as usize) + INSTANCE_WORDS * (i as usize);
    move_words(h, 0, s, to, INSTANCE_WORDS);
    move_words(h, INSTANCE_WORDS, s, SHARED, STORE_WORDS);
    put(s, wide(p), made);
}

// How many its pool has made after a move.
#[tactic(auto, using(base_words::proofs::PickLaws::picks), unfolding(crate::specs::Effects::made_by, meaning::specs::Changes::more))]
pub fn made_after(m: Move, made: Word) -> Word
    ensures { result ≡ made_by m made }
{
    if m.also == MAKES && made < COUNT_MOST {
        made + 1
    } else {
        made
    }
}
