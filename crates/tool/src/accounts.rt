// accounts: of a lawful log, for each message the four numbers and whether they balance, a line each: the message, posted, sent, queued, consumed, and yes or no.
use base_bytes::piece;
use base_state::places::STATE_WORDS;
use base_table::places::TABLE_WORDS;
use base_words::Word;
use log_accounts::{Told, tell_on};
use meaning::{Answer, Traffic, Tuple, empty_tuple};
use step_history::{Accounts, Moved, balances};
use tool_print::{tell, tell_count};
use write_lines::{TRAFFIC_LINE, put_traffic};

// A message as a line has it, without its sign.
fn tell_message(rt: &impl Print, m: Word, g: Tuple) {
    let mut out = [0u8; TRAFFIC_LINE];
    let n = put_traffic(
        &mut out,
        0,
        Answer {
            number: 0,
            traffic: Traffic::Sent,
            name: m,
            tuple: g,
        },
    );
    tell(rt, piece(&out, 1, n));
}

fn tell_number(rt: &impl Print, n: usize) {
    tell(rt, b" ");
    tell_count(rt, n);
}

fn tell_row(rt: &impl Print, m: Word, g: Tuple, a: Accounts) {
    tell_message(rt, m, g);
    tell_number(rt, a.posted);
    tell_number(rt, a.sent);
    tell_number(rt, a.queued);
    tell_number(rt, a.consumed);
    if balances(a) {
        tell(rt, b" yes\n");
    } else {
        tell(rt, b" no\n");
    }
}

// What the first events tell of a message, from the fresh state z, which stays.
fn told(
    t: &[Word; TABLE_WORDS],
    z: &[Word; STATE_WORDS],
    log: &[u8],
    most: usize,
    m: Word,
    g: Tuple,
) -> Told {
    let mut y: [Word; STATE_WORDS] = *z;
    tell_on(t, &mut y, log, most, m, g)
}

fn is_counted(a: Accounts) -> bool {
    a.posted != 0 || a.sent != 0 || a.consumed != 0
}

// The row of the message that an event moved, where none of the events before it did.
fn tell_new(
    rt: &impl Print,
    t: &[Word; TABLE_WORDS],
    z: &[Word; STATE_WORDS],
    log: &[u8],
    before: usize,
    moved: Moved,
) {
    let g = moved.tuple;
    let earlier = told(t, z, log, before, moved.name, g);
    if is_counted(earlier.accounts) {
        return;
    }
    let all = told(t, z, log, log.len(), moved.name, g);
    tell_row(rt, moved.name, g, all.accounts);
}

// Event after event, as long as there is one more.
fn tell_events(rt: &impl Print, t: &[Word; TABLE_WORDS], z: &[Word; STATE_WORDS], log: &[u8]) {
    for k in 0..log.len() {
        let one = told(t, z, log, k + 1, 0, empty_tuple());
        if one.room > 0 {
            return;
        }
        let moved = one.moved;
        if moved.some {
            tell_new(rt, t, z, log, k, moved);
        }
    }
}

pub(super) fn tell_accounts(rt: &impl Print, t: &[Word; TABLE_WORDS], version: Word, log: &[u8]) {
    let mut z: [Word; STATE_WORDS] = [0; STATE_WORDS];
    engine::fresh(t, version, &mut z);
    tell_events(rt, t, &z, log);
}
