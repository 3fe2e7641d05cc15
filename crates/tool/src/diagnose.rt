// diagnose: the number of a drawing, the rule or check that is broken, and the place of what breaks it.
use draw_diagnose::diagnose;
use draw_read::DRAWING_MOST;
use tool_print::{read_full, tell, tell_count};

// One byte more than the longest drawing: what fills it is refused for its length.
const ROOM: usize = DRAWING_MOST + 1;

#[inline(never)]
pub(super) fn do_diagnose(rt: &(impl Print + Input)) {
    let mut text: [u8; ROOM] = [0; ROOM];
    let n = read_full(rt, &mut text);
    let d = diagnose(&text[..n]);
    tell_count(rt, d.number as usize);
    tell(rt, b" ");
    tell_count(rt, d.rule);
    tell(rt, b" ");
    tell_count(rt, d.place);
    tell(rt, b"\n");
}
