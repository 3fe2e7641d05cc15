// The parts of an element's text, each read from a place of the text on and stored at its place in the words of the element.
#![tactic(auto)]

ghost use Rattle.std.specs.Prelude.{◌≡◌};
ghost use Rattle.text_parts.specs.Parts.{message, receiving, receiving_branches, one_edge, task_part, part_of};
ghost use Rattle.text_parts.specs.Tails.{receiving_exit, guard_and_assignments};

use base_words::Word;

mod lists;

use base_table::places::{ENTRIES, EXITS, FIRST_EDGE, MESSAGE_WORDS, MESSAGES, TASK};
use base_words::counts::{BRANCHES, EDGES, FEWEST, NAMES, TASKS};
use base_words::put;
use lists::{assignment_list, edge_list, guarded_list, series, tuple};
use text_bounds::{A_MESSAGE_ITEM, A_TEMPLATE_ITEM, counted, too_many};
use text_readers::{Read, mode_in, number_in, sign_at, starts_sign};
use text_terms::condition_of;

// The most branches, as a branch is numbered.
const BRANCHES_MOST: u8 = BRANCHES as u8;

// A list in a text: what its items are, the signs around it, how many it may have, where their count is stored, and the branch they belong to.
#[derive(Clone, Copy)]
pub struct Series {
    pub item: u8,
    pub opener: u8,
    pub closer: u8,
    pub least: Word,
    pub most: u8,
    pub count: u32,
    pub branch: u8,
}

// The message of branch b: its name and its items.
fn message(text: &[u8], at: usize, x: &mut [Word], item: u8, b: u8) -> Read
    ensures { record { end = result; words = x.new } ≡ message item b text.now at x.old }
{
    let q = number_in(
        text,
        at,
        x,
        0,
        NAMES - 1,
        MESSAGES as u32 + MESSAGE_WORDS as u32 * (b as u32),
    )?;
    let a = sign_at(text, q, b':')?;
    series(text, a, x, tuple(item, b))
}

// Behind the message of a branch that receives.
fn receiving_exit(text: &[u8], at: usize, x: &mut [Word], b: u8) -> Read
    ensures { record { end = result; words = x.new } ≡ receiving_exit b text.now at x.old }
{
    let q = sign_at(text, at, b',')?;
    let a = number_in(
        text,
        q,
        x,
        1,
        EDGES,
        EXITS as u32 + FIRST_EDGE as u32 + (b as u32),
    )?;
    sign_at(text, a, b')')
}

// The branch b of an eventBased.
fn receiving(text: &[u8], at: usize, x: &mut [Word], b: u8) -> Read
    ensures { record { end = result; words = x.new } ≡ receiving b text.now at x.old }
{
    let q = sign_at(text, at, b'(')?;
    let a = message(text, q, x, A_TEMPLATE_ITEM, b)?;
    receiving_exit(text, a, x, b)
}

// The branches of an eventBased, with commas between them, and their count.
fn receiving_branches(text: &[u8], start: usize, x: &mut [Word]) -> Read
    ensures { record { end = result; words = x.new } ≡ receiving_branches text.now start x.old }
{
    let mut at = start;
    for k in 0..BRANCHES_MOST {
        let q = receiving(text, at, x, k)?;
        let Ok(next) = sign_at(text, q, b',') else {
            return counted(text, q, x, FEWEST, EXITS as u32, k as Word + 1);
        };
        at = next;
    }
    too_many(text, at, starts_sign(text, at, b'('))
}

// The one entry or exit of an element, in the list at the place `list`.
fn one_edge(text: &[u8], at: usize, x: &mut [Word], list: u8) -> Read
    ensures { record { end = result; words = x.new } ≡ one_edge list text.now at x.old }
{
    let q = number_in(text, at, x, 1, EDGES, list as u32 + FIRST_EDGE as u32 + 0)?;
    put(x, list as usize, 1);
    Ok(q)
}

// Behind the mode of a task.
fn guard_and_assignments(text: &[u8], at: usize, x: &mut [Word]) -> Read
    ensures { record { end = result; words = x.new } ≡ guard_and_assignments text.now at x.old }
{
    let q = sign_at(text, at, b',')?;
    let a = condition_of(text, q, x, false, 0)?;
    let b = sign_at(text, a, b',')?;
    series(text, b, x, assignment_list())
}

// The task number, mode, guard and assignments of a task.
fn task_part(text: &[u8], at: usize, x: &mut [Word]) -> Read
    ensures { record { end = result; words = x.new } ≡ task_part text.now at x.old }
{
    let q = number_in(text, at, x, 1, TASKS, TASK as u32)?;
    let a = sign_at(text, q, b',')?;
    let b = mode_in(text, a, x)?;
    guard_and_assignments(text, b, x)
}

// The part with a code of the table of kinds; any other code reads nothing.
pub fn part_of(text: &[u8], at: usize, x: &mut [Word], c: u8) -> Read
    ensures { record { end = result; words = x.new } ≡ part_of c text.now at x.old }
{
    if c == b'E' {
        return one_edge(text, at, x, ENTRIES as u8);
    }
    if c == b'X' {
        return one_edge(text, at, x, EXITS as u8);
    }
    if c == b'F' {
        return series(text, at, x, edge_list(ENTRIES as u8));
    }
    if c == b'Y' {
        return series(text, at, x, edge_list(EXITS as u8));
    }
    if c == b'N' {
        return task_part(text, at, x);
    }
    if c == b'T' {
        return message(text, at, x, A_TEMPLATE_ITEM, 0);
    }
    if c == b'S' {
        return message(text, at, x, A_MESSAGE_ITEM, 0);
    }
    if c == b'G' {
        return series(text, at, x, guarded_list());
    }
    if c == b'B' {
        return receiving_branches(text, at, x);
    }
    Ok(at)
}
