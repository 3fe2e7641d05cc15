// drawing: a drawing's text in the notation.
use base_bytes::piece;
use base_table::places::TABLE_WORDS;
use base_words::Word;
use base_words::counts::TEXT_MOST;
use draw_read::DRAWING_MOST;
use tool_print::{read_full, tell, tell_unread};

// One byte more than the longest drawing: what fills it is refused for its length.
const ROOM: usize = DRAWING_MOST + 1;

pub(super) fn tell_text(rt: &impl Print, t: &[Word; TABLE_WORDS]) {
    let mut out = [0u8; TEXT_MOST];
    let r = engine::write(t, &mut out);
    tell(rt, piece(&out, 0, r.length));
}

#[inline(never)]
pub(super) fn do_drawing(rt: &(impl Print + Input)) {
    let mut t: [Word; TABLE_WORDS] = [0; TABLE_WORDS];
    let mut text: [u8; ROOM] = [0; ROOM];
    let n = read_full(rt, &mut text);
    let r = engine::draw(&text[..n], &mut t);
    if r.number != 0 {
        tell_unread(rt, r);
        return;
    }
    tell_text(rt, &t);
}
