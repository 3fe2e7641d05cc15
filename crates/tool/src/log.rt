// log: a model's run as an XES log.
use super::VERSION;
use base_bytes::piece;
use base_state::places::STATE_WORDS;
use base_table::places::TABLE_WORDS;
use base_words::Word;
use base_words::counts::TEXT_MOST;
use base_words::numbers::ACCEPTED;
use log_write::{EVENT, FOOTER, HEADER};
use meaning::{Answer, Name};
use state_figures::RECORD_WORDS;
use std::env::Env;
use step_run::Steps;
use tool_print::{
    RECORDS, STEPS, asked_version, read_full, run_all, set_records, take, tell, tell_fresh,
    tell_read,
};

// One byte more than the longest text: what fills it is refused for its length.
const ROOM: usize = TEXT_MOST + 1;

fn tell_header(rt: &impl Print) {
    let mut out = [0u8; HEADER];
    let n = log_write::put_header(&mut out, 0);
    tell(rt, piece(&out, 0, n));
}

fn tell_event(rt: &impl Print, n: Name, a: Answer) {
    let mut out = [0u8; EVENT];
    let k = log_write::put_event(&mut out, 0, n, a, 0);
    tell(rt, piece(&out, 0, k));
}

fn tell_footer(rt: &impl Print) {
    let mut out = [0u8; FOOTER];
    let n = log_write::put_footer(&mut out, 0);
    tell(rt, piece(&out, 0, n));
}

// Takes the first listed step and says its event.
fn log_once(
    rt: &impl Print,
    t: &[Word; TABLE_WORDS],
    z: &mut [Word; STATE_WORDS],
    rs: &mut [[Word; RECORD_WORDS]],
) {
    let r = engine::list(t, z, 0);
    if r.number != 0 {
        return;
    }
    let a = take(t, z, rs, r.name);
    tell_event(rt, r.name, a);
}

fn log_steps(
    rt: &impl Print,
    t: &[Word; TABLE_WORDS],
    z: &mut [Word; STATE_WORDS],
    rs: &mut [[Word; RECORD_WORDS]],
    steps: Steps,
) {
    for _ in 0..steps {
        log_once(rt, t, z, rs);
    }
}

// A run on a copy of the state says how many steps there are; they are then taken again, one by one.
fn log_run(rt: &impl Print, t: &[Word; TABLE_WORDS], z: &mut [Word; STATE_WORDS]) {
    let mut y: [Word; STATE_WORDS] = *z;
    let mut rs: [[Word; RECORD_WORDS]; RECORDS] = [[0; RECORD_WORDS]; RECORDS];
    set_records(t, z, &mut rs);
    let r = run_all(t, &mut y, &mut rs, STEPS);
    set_records(t, z, &mut rs);
    tell_header(rt);
    log_steps(rt, t, z, &mut rs, r.steps);
    tell_footer(rt);
}

fn log(
    rt: &(impl Print + Env),
    text: &[u8],
    t: &mut [Word; TABLE_WORDS],
    z: &mut [Word; STATE_WORDS],
) {
    let r = tell_read(rt, text, t);
    if r.number != 0 {
        return;
    }
    let number = tell_fresh(rt, t, asked_version(rt, VERSION), z);
    if number == ACCEPTED {
        log_run(rt, t, z);
    }
}

#[inline(never)]
pub(super) fn do_log(rt: &(impl Print + Input + Env)) {
    let mut t: [Word; TABLE_WORDS] = [0; TABLE_WORDS];
    let mut z: [Word; STATE_WORDS] = [0; STATE_WORDS];
    let mut text: [u8; ROOM] = [0; ROOM];
    let n = read_full(rt, &mut text);
    log(rt, &text[..n], &mut t, &mut z);
}
