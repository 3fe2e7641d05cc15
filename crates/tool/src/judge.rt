// judge: whether the run that a log tells was lawful; accounts: and what it tells of each message. The input is a line with the length of the model's text, the text and behind it the log.
use super::VERSION;
use super::accounts::tell_accounts;
use base_bytes::piece;
use base_table::places::TABLE_WORDS;
use base_words::counts::TEXT_MOST;
use base_words::numbers::ACCEPTED;
use base_words::{DIGITS, Word};
use log_text::LOG_MOST;
use std::env::Env;
use text_numerals::{Number, numeral_at};
use tool_print::{asked_version, read_full, tell_judged, tell_read};
use write_buffer::further;
use xml_markup::spans::after;

// The line, and one byte more than the longest text and the longest log: what is longer is refused for its length.
const ROOM: usize = DIGITS + 1 + TEXT_MOST + 1 + LOG_MOST + 1;

fn judge(
    rt: &(impl Print + Env),
    text: &[u8],
    log: &[u8],
    t: &mut [Word; TABLE_WORDS],
    counting: bool,
) {
    let r = tell_read(rt, text, t);
    if r.number != 0 {
        return;
    }
    let version = asked_version(rt, VERSION);
    let j = engine::judge(t, version, log);
    if counting && j.number == ACCEPTED {
        tell_accounts(rt, t, version, log);
        return;
    }
    tell_judged(rt, j);
}

// A line that is no number says that the text is empty.
fn length_in(n: Number) -> usize {
    match n {
        Number::Value(v) => v as usize,
        Number::TooLarge => 0,
        Number::NotANumber => 0,
    }
}

fn judge_input(rt: &(impl Print + Input + Env), counting: bool) {
    let mut t: [Word; TABLE_WORDS] = [0; TABLE_WORDS];
    let mut input: [u8; ROOM] = [0; ROOM];
    let n = read_full(rt, &mut input);
    let line = numeral_at(&input, 0);
    let number = line.number;
    let from = after(&input, line.next);
    let to = further(from, length_in(number));
    judge(
        rt,
        piece(&input, from, to),
        piece(&input, to, n),
        &mut t,
        counting,
    );
}

#[inline(never)]
pub(super) fn do_judge(rt: &(impl Print + Input + Env)) {
    judge_input(rt, false);
}

#[inline(never)]
pub(super) fn do_accounts(rt: &(impl Print + Input + Env)) {
    judge_input(rt, true);
}
