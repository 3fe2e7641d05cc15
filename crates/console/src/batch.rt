// The command `batch`: the items of a poll, each a `step ..` or a `post ..`, with a `;` between them.
use super::desk::{Held, lending};
use super::lines::{Command, OnModel, command_of};
use super::output::{bad_line, no_model, tell_number};
use base_state::places::STATE_WORDS;
use base_table::places::TABLE_WORDS;
use base_words::{Word, put};
use meaning::{Name, Tuple};
use state_figures::RECORD_WORDS;
use step_poll::{
    A_POST, BRANCH, ELEMENT, FIRST_VALUE, INSTANCE, ITEM_WORDS, ITEMS, LENGTH, PHASE, POLL_WORDS,
    POOL_OR_NAME, Polled,
};
use tool_print::{tell, tell_count};

const SEMICOLON: u8 = 59;

fn put_values(item: &mut [Word], g: Tuple) {
    put(item, LENGTH, g.length);
    for (i, v) in g.values.iter().enumerate() {
        put(item, FIRST_VALUE + i, *v);
    }
}

fn put_post(item: &mut [Word], name: Word, values: Tuple) {
    put(item, 0, A_POST);
    put(item, POOL_OR_NAME, name);
    put_values(item, values);
}

fn put_step(item: &mut [Word], n: Name) {
    put(item, POOL_OR_NAME, n.pool);
    put(item, INSTANCE, n.instance);
    put(item, ELEMENT, n.element);
    put(item, PHASE, n.phase);
    put(item, BRANCH, n.branch);
    put_values(item, n.given);
}

// Whether an item is a command of a batch, which then stands in its words.
fn put_item(item: &mut [Word], text: &[u8]) -> bool {
    match command_of(text) {
        Some(Command::OnModel(OnModel::Post(name, values))) => put_post(item, name, values),
        Some(Command::OnModel(OnModel::Step(name))) => put_step(item, name),
        _ => return false,
    }
    true
}

// The items of a text, and how many they are, where all are commands of a batch; above 64 they are no longer counted, and have no place.
fn fill(text: &[u8], items: &mut [Word; POLL_WORDS]) -> Option<usize> {
    let mut count = 0;
    let mut spare = [0; ITEM_WORDS];
    for item in text.split(|b| *b == SEMICOLON) {
        let is_item = if count < ITEMS {
            let from = ITEM_WORDS * count;
            put_item(&mut items[from..], item)
        } else {
            put_item(&mut spare, item)
        };
        if !is_item {
            return None;
        }
        if count <= ITEMS {
            count += 1;
        }
    }
    Some(count)
}

fn tell_polled(rt: &impl Print, p: Polled) {
    tell(rt, b"accepted ");
    tell_count(rt, p.accepted);
    tell(rt, b" refused ");
    tell_number(rt, p.number);
    tell(rt, b"\n");
}

pub(super) fn do_batch(
    rt: &impl Print,
    text: Option<&[u8]>,
    h: Held,
    t: &[Word; TABLE_WORDS],
    z: &mut [Word; STATE_WORDS],
    rs: &mut [[Word; RECORD_WORDS]],
) {
    let mut items: [Word; POLL_WORDS] = [0; POLL_WORDS];
    let filled = match text {
        Some(text) => fill(text, &mut items),
        None => Some(0),
    };
    let Some(count) = filled else {
        bad_line(rt);
        return;
    };
    let Some(records) = h else {
        no_model(rt);
        return;
    };
    tell_polled(rt, engine::poll(t, z, lending(rs, records), &items, count));
}
