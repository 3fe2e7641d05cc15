// repair: a log that ended in the middle.
use log_text::LOG_MOST;
use tool_print::{read_full, tell_repaired};

// One byte more than the longest log: what fills it is refused for its length.
const ROOM: usize = LOG_MOST + 1;

#[inline(never)]
pub(super) fn do_repair(rt: &(impl Print + Input)) {
    let mut text: [u8; ROOM] = [0; ROOM];
    let n = read_full(rt, &mut text);
    tell_repaired(rt, &text[..n]);
}
