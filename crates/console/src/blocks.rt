// The commands on a table and a state as blocks of words: set word by word, checked, written and read again.
use super::output::{tell_ok, tell_refused};
use base_bytes::piece;
use base_table::places::TABLE_WORDS;
use base_words::counts::TEXT_MOST;
use base_words::numbers::NOT_NESTED;
use base_words::{Word, put};
use engine::Verdict;
use text_read::Reading;
use tool_print::{tell, tell_count, tell_unread};

pub(super) fn set_word(rt: &impl Print, s: &mut [Word], place: usize, value: Word) {
    put(s, place, value);
    tell_ok(rt);
}

// A number and what stands beside it.
fn tell_verdict(rt: &impl Print, v: Verdict) {
    tell_unread(
        rt,
        Reading {
            number: v.number,
            beside: v.beside as usize,
        },
    );
}

pub(super) fn do_check(rt: &impl Print, t: &[Word; TABLE_WORDS]) {
    let v = engine::check(t);
    if v.number == 0 {
        tell_ok(rt);
        return;
    }
    tell_verdict(rt, v);
}

// 10 has nothing beside it, 29 the number of the pool.
pub(super) fn do_nested(rt: &impl Print, t: &[Word; TABLE_WORDS]) {
    let v = engine::nested(t);
    if v.number == 0 {
        tell(rt, b"nested\n");
        return;
    }
    if v.number == NOT_NESTED {
        tell_verdict(rt, v);
        return;
    }
    tell_refused(rt, v.number);
}

fn tell_again(rt: &impl Print, length: usize, is_same_table: bool, is_same_text: bool) {
    if !is_same_table {
        tell(rt, b"table differs\n");
        return;
    }
    if !is_same_text {
        tell(rt, b"text differs\n");
        return;
    }
    tell(rt, b"same ");
    tell_count(rt, length);
    tell(rt, b"\n");
}

// A table's text, read into another table and written from there.
fn read_again(rt: &impl Print, t: &[Word; TABLE_WORDS], text: &[u8]) {
    let mut y: [Word; TABLE_WORDS] = [0; TABLE_WORDS];
    let mut out = [0u8; TEXT_MOST];
    engine::read(text, &mut y);
    let n = engine::write(&y, &mut out).length;
    tell_again(rt, text.len(), *t == y, text == piece(&out, 0, n));
}

pub(super) fn do_again(rt: &impl Print, t: &[Word; TABLE_WORDS]) {
    let mut out = [0u8; TEXT_MOST];
    let r = engine::write(t, &mut out);
    if r.number != 0 {
        tell_refused(rt, r.number);
        return;
    }
    read_again(rt, t, piece(&out, 0, r.length));
}
