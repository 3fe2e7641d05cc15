// What the console says beside what the programs share.
use base_bytes::piece;
use base_words::Word;
use meaning::{Answer, Name, Tuple};
use tool_print::{tell, tell_count};
use write_lines::{NAME_LINE, STEP_LINE};

pub(super) fn bad_line(rt: &impl Print) {
    tell(rt, b"bad line\n");
}

pub(super) fn no_model(rt: &impl Print) {
    tell(rt, b"no model\n");
}

pub(super) fn tell_number(rt: &impl Print, n: Word) {
    tell_count(rt, n as usize);
}

pub(super) fn tell_refused(rt: &impl Print, number: Word) {
    tell(rt, b"refused ");
    tell_number(rt, number);
    tell(rt, b"\n");
}

pub(super) fn tell_ok(rt: &impl Print) {
    tell(rt, b"ok\n");
}

// A call that gives back only a number.
pub(super) fn tell_done(rt: &impl Print, number: Word) {
    if number == 0 {
        tell_ok(rt);
        return;
    }
    tell_refused(rt, number);
}

// `-`, or the message sent or consumed.
pub(super) fn tell_traffic(rt: &impl Print, a: Answer) {
    let mut out = [0u8; STEP_LINE];
    let n = write_lines::put_traffic(&mut out, 0, a);
    tell(rt, piece(&out, 0, n));
}

// The name of a step, and its values.
pub(super) fn tell_name(rt: &impl Print, n: Name) {
    let mut out = [0u8; NAME_LINE];
    let k = write_lines::put_name(&mut out, 0, n);
    tell(rt, piece(&out, 0, k));
    tell(rt, b"\n");
}

// The values of a message, `-` for none.
pub(super) fn tell_tuple(rt: &impl Print, g: Tuple) {
    let mut out = [0u8; NAME_LINE];
    let k = write_lines::put_tuple(&mut out, 0, g);
    tell(rt, piece(&out, 0, k));
}
