// The element that a node of a drawing means.
ghost use Rattle.std.specs.Prelude.{◌≡◌};
ghost use Rattle.base_words.specs.Words.{at};
ghost use Rattle.base_table.specs.Places.{exits_place};
ghost use Rattle.text_elements.specs.Elements.{blank};
ghost use Rattle.draw_numbers.specs.Numbers.{edge_of};
ghost use Rattle.draw_things.specs.Things.{kind};
ghost use Rattle.draw_model.specs.Drawn.{with_edge, received_by, sent_by, with_message, with_form, with_task, with_first, head_of, with_term, with_condition, said_or_true, guarded_by, with_guard, exit_behind, with_branch, exit_by, entering_by, leaving_by, by_flow, element_drawn};

use base_kinds::moves::{A, EVENT_BASED, XOR_SPLIT};
use base_table::places::{
    ALWAYS, CONDITIONS, DEFAULT, ELEMENT_WORDS, ENTRIES, EXITS, EXPRESSION_WORDS, FIRST_EDGE, FORM,
    KIND, LEFT, MESSAGE_WORDS, MESSAGES, MODE, OPERAND_NUMBER, RIGHT, TASK,
};
use base_words::{Word, clear, put, word};
use draw_conditions::{ABSENT, Condition, Term, condition_at};
use draw_kinds::counting::{SOURCE_IN, TARGET_IN, WITHIN_IN, first_with, of_sort};
use draw_numbers::numbers::{
    default_of, edge_of, first_edge_of, is_start, is_task, message_of, task_of,
};
use draw_numbers::who::{is_receiver, is_sender};
use draw_things::things::{
    CONDITION_EXPRESSION, MESSAGE_FLOW, Note, SEQUENCE_FLOW, kind_of_thing, next_number, place_of,
    source_of, target_of, within_of,
};

// One more edge of the list at a place: ENTRIES or EXITS.
fn put_edge(list: Word, e: Word, x: &mut [Word])
    ensures { x.new ≡ with_edge list e x.old }
{
    let count = word(x, list as usize);
    put(x, (list as usize) + FIRST_EDGE + (count as usize), e);
    put(x, list as usize, next_number(count));
}

fn received_by(w: &[Note], n: Note, k: Note) -> Word
    ensures { result ≡ received_by w.now n k }
{
    message_of(w, first_with(MESSAGE_FLOW, TARGET_IN, k, w, n))
}

fn sent_by(w: &[Note], n: Note, k: Note) -> Word
    ensures { result ≡ sent_by w.now n k }
{
    message_of(w, first_with(MESSAGE_FLOW, SOURCE_IN, k, w, n))
}

fn put_message(w: &[Note], n: Note, k: Note, x: &mut [Word])
    ensures { x.new ≡ with_message w.now n k x.old }
{
    if is_receiver(w, k) {
        put(x, MESSAGES, received_by(w, n, k));
        return;
    }
    if is_sender(w, k) {
        put(x, MESSAGES, sent_by(w, n, k));
    }
}

// The form of the condition of branch b.
fn put_form(b: Word, form: Word, x: &mut [Word])
    ensures { x.new ≡ with_form b form x.old }
{
    put(x, CONDITIONS + EXPRESSION_WORDS * (b as usize) + FORM, form);
}

fn put_task(w: &[Note], k: Note, x: &mut [Word])
    ensures { x.new ≡ with_task w.now k x.old }
{
    put(x, TASK, task_of(w, k));
    put(x, MODE, A);
    put_form(0, ALWAYS, x);
}

fn put_first(w: &[Note], n: Note, k: Note, x: &mut [Word])
    ensures { x.new ≡ with_first w.now n k x.old }
{
    let p = within_of(w, k);
    if is_task(p, w, k) {
        put_task(w, k, x);
        return;
    }
    if is_start(p, w, k) {
        put_edge(ENTRIES as Word, first_edge_of(w, n, k), x);
    }
}

fn put_kind(w: &[Note], k: Note, x: &mut [Word])
    ensures { x.new ≡ blank (kind w.now k) x.old }
{
    clear(x);
    put(x, KIND, kind_of_thing(w, k));
}

fn put_head(w: &[Note], n: Note, k: Note, x: &mut [Word; ELEMENT_WORDS])
    ensures { x.new ≡ head_of w.now n k }
{
    put_kind(w, k, x);
    put_first(w, n, k, x);
    put_message(w, n, k, x);
}

// An operand of the condition of branch b.
fn put_term(o: Term, b: Word, side: Word, x: &mut [Word])
    ensures { x.new ≡ with_term o b side x.old }
{
    let p = CONDITIONS + EXPRESSION_WORDS * (b as usize) + (side as usize);
    put(x, p, o.flag);
    put(x, p + OPERAND_NUMBER, o.number);
}

fn put_condition(c: Condition, b: Word, x: &mut [Word])
    ensures { x.new ≡ with_condition c b x.old }
{
    put_form(b, c.form, x);
    put_term(c.left, b, LEFT as Word, x);
    put_term(c.right, b, RIGHT as Word, x);
}

fn put_said(c: Condition, b: Word, x: &mut [Word])
    ensures { x.new ≡ said_or_true c b x.old }
{
    if c.form == ABSENT {
        put_form(b, ALWAYS, x);
        return;
    }
    put_condition(c, b, x);
}

// The condition of flow j, as that of branch b.
fn put_guarded(text: &[u8], w: &[Note], n: Note, j: Note, b: Word, x: &mut [Word])
    ensures { x.new ≡ guarded_by text.now w.now n j b x.old }
{
    let i = first_with(CONDITION_EXPRESSION, WITHIN_IN, j, w, n);
    if i < n {
        let said = condition_at(text, place_of(w, i) as usize);
        put_said(said, b, x);
        return;
    }
    put_form(b, ALWAYS, x);
}

fn put_guard(text: &[u8], w: &[Note], n: Note, k: Note, j: Note, b: Word, x: &mut [Word])
    ensures { x.new ≡ with_guard text.now w.now n k j b x.old }
{
    if default_of(text, w, n, k) == j {
        put_form(b, DEFAULT, x);
        return;
    }
    put_guarded(text, w, n, j, b, x);
}

// The number of the edge behind the catch event to which flow j leads.
fn exit_behind(w: &[Note], n: Note, j: Note) -> Word
    ensures { result ≡ exit_behind w.now n j }
{
    edge_of(
        w,
        first_with(SEQUENCE_FLOW, SOURCE_IN, target_of(w, j), w, n),
    )
}

fn put_branch(w: &[Note], n: Note, j: Note, x: &mut [Word])
    ensures { x.new ≡ with_branch w.now n j x.old }
{
    let b = word(x, EXITS);
    let message = received_by(w, n, target_of(w, j));
    put(x, MESSAGES + MESSAGE_WORDS * (b as usize), message);
    put_edge(EXITS as Word, exit_behind(w, n, j), x);
}

fn put_guarded_exit(text: &[u8], w: &[Note], n: Note, k: Note, j: Note, x: &mut [Word])
    ensures { x.new ≡ with_edge exits_place (edge_of w.now j) (with_guard text.now w.now n k j (at x.old exits_place) x.old) }
{
    let b = word(x, EXITS);
    put_guard(text, w, n, k, j, b, x);
    put_edge(EXITS as Word, edge_of(w, j), x);
}

fn put_exit(text: &[u8], w: &[Note], n: Note, k: Note, j: Note, x: &mut [Word])
    ensures { x.new ≡ exit_by text.now w.now n k j x.old }
{
    let kind = kind_of_thing(w, k);
    if kind == EVENT_BASED {
        put_branch(w, n, j, x);
        return;
    }
    if kind == XOR_SPLIT {
        put_guarded_exit(text, w, n, k, j, x);
        return;
    }
    put_edge(EXITS as Word, edge_of(w, j), x);
}

fn put_entry(w: &[Note], k: Note, j: Note, x: &mut [Word])
    ensures { x.new ≡ entering_by w.now k j x.old }
{
    if target_of(w, j) == k {
        put_edge(ENTRIES as Word, edge_of(w, j), x);
    }
}

fn put_leaving(text: &[u8], w: &[Note], n: Note, k: Note, j: Note, x: &mut [Word])
    ensures { x.new ≡ leaving_by text.now w.now n k j x.old }
{
    if source_of(w, j) == k {
        put_exit(text, w, n, k, j, x);
    }
}

fn put_flow(text: &[u8], w: &[Note], n: Note, k: Note, j: Note, x: &mut [Word])
    ensures { x.new ≡ by_flow text.now w.now n k j x.old }
{
    if of_sort(SEQUENCE_FLOW, w, j) {
        put_entry(w, k, j, x);
        put_leaving(text, w, n, k, j, x);
    }
}

// The words of the element that node k is, whatever stood in them.
pub fn element_drawn(text: &[u8], w: &[Note], n: Note, k: Note, x: &mut [Word; ELEMENT_WORDS])
    ensures { x.new ≡ element_drawn text.now w.now n k }
{
    put_head(w, n, k, x);
    for j in 0..n {
        put_flow(text, w, n, k, j, x);
    }
}
