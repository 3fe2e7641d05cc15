// map: which node of a drawing is which number, and where it stands.
use base_bytes::piece;
use draw_chart::put_map;
use draw_read::DRAWING_MOST;
use tool_print::{read_full, tell};

// One byte more than the longest drawing: what fills it is refused for its length.
const ROOM: usize = DRAWING_MOST + 1;

// More than any map has: no line is longer than what it stands for, but by a few bytes.
const MAP_ROOM: usize = 2 * DRAWING_MOST;

#[inline(never)]
pub(super) fn do_map(rt: &(impl Print + Input)) {
    let mut text: [u8; ROOM] = [0; ROOM];
    let n = read_full(rt, &mut text);
    let mut out: [u8; MAP_ROOM] = [0; MAP_ROOM];
    let k = put_map(&text[..n], &mut out);
    tell(rt, piece(&out, 0, k));
}
