// The phrases of an element's text that take its words: messages, lists of edges and of branches, and what a task has. Each writer writes from a
// place on, as far as the lent buffer goes, and returns the place behind its text.
#![tactic(auto)]

ghost use Rattle.std.specs.Prelude.{◌+◌};
ghost use Rattle.write_buffer.specs.Buffers.{Put};
ghost use Rattle.write_shown.specs.Shown.{shown_tuple, shown_message, shown_guarded, shown_guarded_list, shown_receiving, shown_assignments, shown_task};
ghost use Rattle.write_phrases.specs.Pieces.{items, edges, edge_list, shown_branch, branches, assigned, choice, event, task_guard};
ghost use Rattle.write_shown.specs.Lengths.{items_most, tuple_most, message_most, edges_most, choice_most, guarded_most, event_most, receiving_most, branches_most, assigned_most, work_most, task_most};

use base_table::places::EXITS;
use base_table::{
    assignment_at, assignment_count, condition_at, edge_at, item_at, message_length, message_name,
    mode_in, task_in,
};
use base_words::{Word, word};
use write_buffer::put_byte;
use write_decimals::put_number;
use write_shown::{put_assignment, put_condition, put_item, put_lead, put_mode};

// The items of the message of branch b.
fn put_items(out: &mut [u8], from: usize, el: &[Word], b: Word) -> usize
    ensures { Put (items el.now b) items_most from out.old result out.new }
{
    let n = message_length(el, b);
    let mut end = from;
    for j in 0..n {
        let comma = put_lead(out, end, b',', j);
        end = put_item(out, comma, item_at(el, b, j));
    }
    end
}

fn put_tuple(out: &mut [u8], from: usize, el: &[Word], b: Word) -> usize
    ensures { Put (shown_tuple el.now b) tuple_most from out.old result out.new }
{
    let opener = put_byte(out, from, b'<');
    let end = put_items(out, opener, el, b);
    put_byte(out, end, b'>')
}

// The message of branch b: name, colon, tuple.
pub fn put_message(out: &mut [u8], from: usize, el: &[Word], b: Word) -> usize
    ensures { Put (shown_message el.now b) message_most from out.old result out.new }
{
    let name = put_number(out, from, message_name(el, b));
    let colon = put_byte(out, name, b':');
    put_tuple(out, colon, el, b)
}

// The edges of the list at a place: ENTRIES or EXITS.
fn put_edges(out: &mut [u8], from: usize, el: &[Word], list: Word) -> usize
    ensures { Put (edges el.now list) edges_most from out.old result out.new }
{
    let n = word(el, list as usize);
    let mut end = from;
    for j in 0..n {
        let comma = put_lead(out, end, b',', j);
        end = put_number(out, comma, edge_at(el, list, j));
    }
    end
}

// The list itself.
pub fn put_edge_list(out: &mut [u8], from: usize, el: &[Word], list: Word) -> usize
    ensures { Put (edge_list el.now list) (edges_most + 2) from out.old result out.new }
{
    let opener = put_byte(out, from, b'{');
    let end = put_edges(out, opener, el, list);
    put_byte(out, end, b'}')
}

// A branch `f,C` without its signs.
fn put_choice(out: &mut [u8], from: usize, el: &[Word], b: Word) -> usize
    ensures { Put (choice el.now b) choice_most from out.old result out.new }
{
    let exit = put_number(out, from, edge_at(el, EXITS as Word, b));
    let comma = put_byte(out, exit, b',');
    put_condition(out, comma, condition_at(el, b))
}

// A branch `(f,C)`.
fn put_guarded(out: &mut [u8], from: usize, el: &[Word], b: Word) -> usize
    ensures { Put (shown_guarded el.now b) guarded_most from out.old result out.new }
{
    let opener = put_byte(out, from, b'(');
    let end = put_choice(out, opener, el, b);
    put_byte(out, end, b')')
}

// A branch `m:T,f` without its signs.
fn put_event(out: &mut [u8], from: usize, el: &[Word], b: Word) -> usize
    ensures { Put (event el.now b) event_most from out.old result out.new }
{
    let message = put_message(out, from, el, b);
    let comma = put_byte(out, message, b',');
    put_number(out, comma, edge_at(el, EXITS as Word, b))
}

// A branch `(m:T,f)`.
fn put_receiving(out: &mut [u8], from: usize, el: &[Word], b: Word) -> usize
    ensures { Put (shown_receiving el.now b) receiving_most from out.old result out.new }
{
    let opener = put_byte(out, from, b'(');
    let end = put_event(out, opener, el, b);
    put_byte(out, end, b')')
}

// A branch of a kind whose branches receive, or have conditions.
fn put_branch(out: &mut [u8], from: usize, el: &[Word], receives: bool, b: Word) -> usize
    ensures { Put (shown_branch receives el.now b) receiving_most from out.old result out.new }
{
    if receives {
        return put_receiving(out, from, el, b);
    }
    put_guarded(out, from, el, b)
}

pub fn put_branches(out: &mut [u8], from: usize, el: &[Word], receives: bool) -> usize
    ensures { Put (branches receives el.now) branches_most from out.old result out.new }
{
    let n = word(el, EXITS);
    let mut end = from;
    for j in 0..n {
        let comma = put_lead(out, end, b',', j);
        end = put_branch(out, comma, el, receives, j);
    }
    end
}

pub fn put_guarded_list(out: &mut [u8], from: usize, el: &[Word]) -> usize
    ensures { Put (shown_guarded_list el.now) (branches_most + 2) from out.old result out.new }
{
    let opener = put_byte(out, from, b'{');
    let end = put_branches(out, opener, el, false);
    put_byte(out, end, b'}')
}

fn put_assigned(out: &mut [u8], from: usize, el: &[Word]) -> usize
    ensures { Put (assigned el.now) assigned_most from out.old result out.new }
{
    let n = assignment_count(el);
    let mut end = from;
    for j in 0..n {
        let comma = put_lead(out, end, b',', j);
        end = put_assignment(out, comma, assignment_at(el, j));
    }
    end
}

fn put_assignments(out: &mut [u8], from: usize, el: &[Word]) -> usize
    ensures { Put (shown_assignments el.now) (assigned_most + 2) from out.old result out.new }
{
    let opener = put_byte(out, from, b'{');
    let end = put_assigned(out, opener, el);
    put_byte(out, end, b'}')
}

// Guard and assignments of a task.
fn put_work(out: &mut [u8], from: usize, el: &[Word]) -> usize
    ensures { Put (task_guard el.now) work_most from out.old result out.new }
{
    let guard = put_condition(out, from, condition_at(el, 0));
    let comma = put_byte(out, guard, b',');
    put_assignments(out, comma, el)
}

// Number, mode, guard and assignments of a task.
pub fn put_task(out: &mut [u8], from: usize, el: &[Word]) -> usize
    ensures { Put (shown_task el.now) task_most from out.old result out.new }
{
    let number = put_number(out, from, task_in(el));
    let comma = put_byte(out, number, b',');
    let mode = put_mode(out, comma, mode_in(el));
    let last = put_byte(out, mode, b',');
    put_work(out, last, el)
}
