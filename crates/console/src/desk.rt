// The records of the route desk: asked for, and set by hand, so that the calls can be tried on records that do not agree.
use super::output::{tell_number, tell_ok, tell_refused};
use base_state::places::STATE_WORDS;
use base_table::places::{FIRST_POOL, POOL_WORDS, TABLE_WORDS};
use base_words::counts::POOLS;
use base_words::{Word, word};
use state_figures::RECORD_WORDS;
use tool_print::{lent, set_records, tell};

// One more than a table has pools, so that there can be too many.
pub(super) const KEPT: usize = 5;

// How many records are lent, where there is a model to work on.
pub(super) type Held = Option<usize>;

// The records of a table and a state that were set: as many as the pools, and counted where both fit.
pub(super) fn hold(
    t: &[Word; TABLE_WORDS],
    z: &[Word; STATE_WORDS],
    rs: &mut [[Word; RECORD_WORDS]],
) -> usize {
    set_records(t, z, rs);
    lent(t, rs.len())
}

// As many of the records as are lent.
pub(super) fn lending(
    rs: &mut [[Word; RECORD_WORDS]],
    records: usize,
) -> &mut [[Word; RECORD_WORDS]] {
    let n = records.min(rs.len());
    &mut rs[..n]
}

fn tell_record(rt: &impl Print, number: Word, r: [Word; RECORD_WORDS]) {
    tell(rt, b"figures ");
    tell_number(rt, number);
    for x in r {
        tell(rt, b" ");
        tell_number(rt, x);
    }
    tell(rt, b"\n");
}

fn tell_records(rt: &impl Print, t: &[Word], rs: &[[Word; RECORD_WORDS]]) {
    for (p, r) in rs.iter().take(POOLS as usize).enumerate() {
        tell_record(rt, word(t, FIRST_POOL + POOL_WORDS * p), *r);
    }
}

pub(super) fn do_figures(
    rt: &impl Print,
    t: &[Word; TABLE_WORDS],
    z: &[Word; STATE_WORDS],
    rs: &mut [[Word; RECORD_WORDS]],
) {
    let number = engine::figures(t, z, rs);
    if number != 0 {
        tell_refused(rt, number);
        return;
    }
    tell_records(rt, t, rs);
    tell(rt, b"end\n");
}

pub(super) fn set_record(
    rt: &impl Print,
    rs: &mut [[Word; RECORD_WORDS]],
    p: usize,
    k: usize,
    v: Word,
) {
    if p < rs.len() && k < RECORD_WORDS {
        rs[p][k] = v;
    }
    tell_ok(rt);
}
