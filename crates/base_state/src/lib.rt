// The instances of a state, and the words of one instance: tokens, task counts, fields.
#![tactic(auto)]

ghost use Rattle.std.specs.Prelude.{◌≡◌};
ghost use Rattle.base_words.specs.Words.{at};
ghost use Rattle.base_state.specs.Places.{defined_place, value_place};
ghost use Rattle.base_state.specs.Instances.{made_count, instance_at, tokens, active_count, ready_count, with_tokens, with_active, with_ready, with_field};

use base_words::{Word, less_one, put, tail, wide, word};

pub mod places;
pub mod versions;

use places::{
    ACTIVE, DEFINED, FIELD_VALUES, FIRST_INSTANCE, INSTANCE_WORDS, POOL_INSTANCES, READY,
};

// How many instances a pool has made.
pub fn made_count(s: &[Word], p: Word) -> Word
    ensures { result ≡ made_count s.now p }
{
    word(s, wide(p))
}

// The words of the instances from instance i of pool p on.
pub fn instance_at(s: &[Word], p: Word, i: Word) -> &[Word]
    ensures { result.now ≡ instance_at s.now p i }
{
    tail(
        s,
        FIRST_INSTANCE + POOL_INSTANCES * (p as usize) + INSTANCE_WORDS * (i as usize),
    )
}

pub fn tokens_on(h: &[Word], e: Word) -> Word
    ensures { result ≡ tokens h.now e }
{
    word(h, wide(less_one(e)))
}

pub fn active_count(h: &[Word], task: Word) -> Word
    ensures { result ≡ active_count h.now task }
{
    word(h, ACTIVE + wide(less_one(task)))
}

pub fn ready_count(h: &[Word], task: Word) -> Word
    ensures { result ≡ ready_count h.now task }
{
    word(h, READY + wide(less_one(task)))
}

pub fn put_tokens(h: &mut [Word], e: Word, count: Word)
    ensures { h.new ≡ with_tokens h.old e count }
{
    put(h, wide(less_one(e)), count);
}

pub fn put_active(h: &mut [Word], task: Word, count: Word)
    ensures { h.new ≡ with_active h.old task count }
{
    put(h, ACTIVE + wide(less_one(task)), count);
}

pub fn put_ready(h: &mut [Word], task: Word, count: Word)
    ensures { h.new ≡ with_ready h.old task count }
{
    put(h, READY + wide(less_one(task)), count);
}

// Where it stands whether field d is defined, and its value.
pub fn defined_place(d: Word) -> usize
    ensures { result ≡ defined_place d }
{
    DEFINED + 2 * (d as usize)
}

pub fn value_place(d: Word) -> usize
    ensures { result ≡ value_place d }
{
    FIELD_VALUES + 2 * (d as usize)
}

// Whether field d is defined, and its value, as they stand.
pub fn defined_at(h: &[Word], d: Word) -> Word
    ensures { result ≡ at h.now (defined_place d) }
{
    word(h, defined_place(d))
}

pub fn value_at(h: &[Word], d: Word) -> Word
    ensures { result ≡ at h.now (value_place d) }
{
    word(h, value_place(d))
}

// Field d, defined.
pub fn put_field(h: &mut [Word], d: Word, v: Word)
    ensures { h.new ≡ with_field h.old d v }
{
    put(h, defined_place(d), 1);
    put(h, value_place(d), v);
}
