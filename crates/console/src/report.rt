// The lines of a state: its version, its made instances, its stores and its queues. Counts of a state that does not fit are bounded by the layout.
use super::output::{tell_number, tell_tuple};
use base_state::places::{ACTIVE, DEFINED, INSTANCES_WORDS, READY, SHARED, STATE_WORDS};
use base_state::versions::{FORMER, version_of};
use base_state::{defined_at, instance_at, made_count, value_at};
use base_table::places::{FIRST_POOL, POOL_WORDS, TABLE_WORDS};
use base_table::pool_count;
use base_words::counts::{EDGES, FIELDS, INSTANCES, MESSAGES, NAMES, POOLS, TASKS, VALUES};
use base_words::{Word, tail, word};
use meaning::Tuple;
use step_queues::{message_at, queued_in};
use tool_print::tell;

// `number:value`, a comma before it where another stands there.
fn tell_pair(rt: &impl Print, is_first: bool, number: Word, value: Word) {
    if !is_first {
        tell(rt, b",");
    }
    tell_number(rt, number);
    tell(rt, b":");
    tell_number(rt, value);
}

// One pair, where its flag is not 0; answers whether the next one is still the first.
fn pair_if(rt: &impl Print, is_first: bool, flag: Word, number: Word, value: Word) -> bool {
    if flag == 0 {
        return is_first;
    }
    tell_pair(rt, is_first, number, value);
    false
}

// The counts of n places that are not 0: their numbers count from 1.
fn tell_counts(rt: &impl Print, h: &[Word], n: Word) {
    let mut is_first = true;
    for k in 0..n {
        let count = word(h, k as usize);
        is_first = pair_if(rt, is_first, count, k + 1, count);
    }
    if is_first {
        tell(rt, b"-");
    }
}

// The fields that are defined.
fn tell_fields(rt: &impl Print, h: &[Word]) {
    let mut is_first = true;
    for d in 0..FIELDS {
        is_first = pair_if(rt, is_first, defined_at(h, d), d, value_at(h, d));
    }
    if is_first {
        tell(rt, b"-");
    }
}

// Whether one of the fields is defined.
fn has_fields(h: &[Word]) -> bool {
    (0..FIELDS).any(|d| defined_at(h, d) != 0)
}

// The stores stand as fields do, in a block that starts as far before them.
fn tell_stores(rt: &impl Print, z: &[Word]) {
    let h = tail(z, SHARED - DEFINED);
    if !has_fields(h) {
        return;
    }
    tell(rt, b"stores ");
    tell_fields(rt, h);
    tell(rt, b"\n");
}

fn tell_instance(rt: &impl Print, number: Word, i: Word, h: &[Word]) {
    tell(rt, b"instance ");
    tell_number(rt, number);
    tell(rt, b" ");
    tell_number(rt, i);
    tell(rt, b" tokens ");
    tell_counts(rt, h, EDGES);
    tell(rt, b" active ");
    tell_counts(rt, tail(h, ACTIVE), TASKS);
    tell(rt, b" ready ");
    tell_counts(rt, tail(h, READY), TASKS);
    tell(rt, b" fields ");
    tell_fields(rt, h);
    tell(rt, b"\n");
}

fn tell_pool(rt: &impl Print, t: &[Word], z: &[Word], p: Word) {
    let number = word(t, FIRST_POOL + POOL_WORDS * (p as usize));
    let made = made_count(z, p).min(INSTANCES);
    for i in 0..made {
        tell_instance(rt, number, i, instance_at(z, p, i));
    }
}

fn tell_message(rt: &impl Print, g: Tuple) {
    let values = g.values;
    tell(rt, b" ");
    tell_tuple(
        rt,
        Tuple {
            length: g.length.min(VALUES),
            values,
        },
    );
}

fn tell_queue(rt: &impl Print, q: &[Word], m: Word) {
    let n = queued_in(q, m).min(MESSAGES);
    if n == 0 {
        return;
    }
    tell(rt, b"queue ");
    tell_number(rt, m);
    for k in 0..n {
        tell_message(rt, message_at(q, m, k));
    }
    tell(rt, b"\n");
}

fn tell_pools(rt: &impl Print, t: &[Word], z: &[Word]) {
    let n = pool_count(t).min(POOLS);
    for p in 0..n {
        tell_pool(rt, t, z, p);
    }
}

fn tell_queues(rt: &impl Print, q: &[Word]) {
    for m in 0..NAMES {
        tell_queue(rt, q, m);
    }
}

// The present version is not said.
fn tell_version(rt: &impl Print, z: &[Word]) {
    if version_of(z) == FORMER {
        tell(rt, b"version 10\n");
    }
}

pub(super) fn report(rt: &impl Print, t: &[Word; TABLE_WORDS], z: &[Word; STATE_WORDS]) {
    tell_version(rt, z);
    tell_pools(rt, t, z);
    tell_stores(rt, z);
    tell_queues(rt, tail(z, INSTANCES_WORDS));
    tell(rt, b"end\n");
}
