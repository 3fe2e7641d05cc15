// nested: whether a model's text is of the nested profile; else the first pool that is not, by its number, and the element at which it offends, by its place; and behind that the model as it is held.
use super::drawing::tell_text;
use base_table::places::TABLE_WORDS;
use base_words::Word;
use base_words::counts::TEXT_MOST;
use base_words::numbers::ACCEPTED;
use check_nested::{first_unnested, offending};
use tool_print::{read_full, tell, tell_count, tell_read};

// One byte more than the longest text: what fills it is refused for its length.
const ROOM: usize = TEXT_MOST + 1;

fn tell_offence(rt: &impl Print, t: &[Word; TABLE_WORDS], pool: Word) {
    tell(rt, b"refused 29 ");
    tell_count(rt, pool as usize);
    tell(rt, b" ");
    tell_count(rt, offending(t, first_unnested(t)) as usize);
    tell(rt, b"\n");
}

fn tell_profile(rt: &impl Print, t: &[Word; TABLE_WORDS]) {
    let v = engine::nested(t);
    if v.number == ACCEPTED {
        tell(rt, b"nested\n");
        return;
    }
    tell_offence(rt, t, v.beside);
    tell_text(rt, t);
}

#[inline(never)]
pub(super) fn do_nested(rt: &(impl Print + Input)) {
    let mut t: [Word; TABLE_WORDS] = [0; TABLE_WORDS];
    let mut text: [u8; ROOM] = [0; ROOM];
    let n = read_full(rt, &mut text);
    let r = tell_read(rt, &text[..n], &mut t);
    if r.number == ACCEPTED {
        tell_profile(rt, &t);
    }
}
