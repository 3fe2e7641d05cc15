// A table, and what it says: of its pools, and of an element's parts.
#![tactic(auto)]

ghost use Rattle.std.specs.Prelude.{◌≡◌, drop};
ghost use Rattle.base_words.specs.Words.{at};
ghost use Rattle.base_words.specs.Seek.{seek};
ghost use Rattle.base_table.specs.Places.{edge_place};
ghost use Rattle.base_table.specs.Table.{pool_count, element_count, element_at, has_number, pool_of, limit_of, kind_in, task_in, mode_in, entry_count, exit_count, condition_at, message_name, message_length, item_at, assignment_count, assignment_at};

use base_kinds::{count_by, entries_of, exits_of};
use base_words::{Word, tail, word};

pub mod places;

use places::{
    ASSIGNMENT_COUNT, ASSIGNMENT_WORDS, CONDITIONS, ELEMENT_COUNT, ELEMENT_WORDS, ENTRIES, EXITS,
    EXPRESSION_WORDS, FIRST_ASSIGNMENT, FIRST_EDGE, FIRST_ELEMENT, FIRST_ITEM, FIRST_POOL, KIND,
    LIMIT, MESSAGE_LENGTH, MESSAGE_WORDS, MESSAGES, MODE, POOL_COUNT, POOL_WORDS, TASK,
};

pub fn pool_count(t: &[Word]) -> Word
    ensures { result ≡ pool_count t.now }
{
    word(t, POOL_COUNT)
}

pub fn element_count(t: &[Word], p: Word) -> Word
    ensures { result ≡ element_count t.now p }
{
    word(t, FIRST_POOL + POOL_WORDS * (p as usize) + ELEMENT_COUNT)
}

// The words of the table from an element on.
pub fn element_at(t: &[Word], p: Word, e: Word) -> &[Word]
    ensures { result.now ≡ element_at t.now p e }
{
    tail(
        t,
        FIRST_POOL + POOL_WORDS * (p as usize) + FIRST_ELEMENT + ELEMENT_WORDS * (e as usize),
    )
}

fn is_numbered(t: &[Word], number: Word, p: Word) -> bool
    ensures { result ≡ has_number t.now number p }
{
    word(t, FIRST_POOL + POOL_WORDS * (p as usize)) == number
}

fn pool_below(t: &[Word], number: Word, n: Word) -> Word
    ensures { result ≡ seek (has_number t.now number) n }
{
    (0..n).find(|&p| is_numbered(t, number, p)).unwrap_or(n)
}

// The place of the pool with a number; the pool count where there is none.
pub fn pool_of(t: &[Word], number: Word) -> Word
    ensures { result ≡ pool_of t.now number }
{
    pool_below(t, number, pool_count(t))
}

// How many instances a pool makes at most.
#[tactic(auto, using(base_words::proofs::PickLaws::picks), unfolding(crate::specs::Table::limit_of))]
pub fn limit_of(t: &[Word], p: Word) -> Word
    ensures { result ≡ limit_of t.now p }
{
    let n = word(t, FIRST_POOL + POOL_WORDS * (p as usize) + LIMIT);
    if n == 0 { 1 } else { n }
}

pub fn kind_in(el: &[Word]) -> Word
    ensures { result ≡ kind_in el.now }
{
    word(el, KIND)
}

pub fn task_in(el: &[Word]) -> Word
    ensures { result ≡ task_in el.now }
{
    word(el, TASK)
}

pub fn mode_in(el: &[Word]) -> Word
    ensures { result ≡ mode_in el.now }
{
    word(el, MODE)
}

// How many entries an element has, by the table of kinds.
pub fn entry_count(el: &[Word]) -> Word
    ensures { result ≡ entry_count el.now }
{
    count_by(entries_of(word(el, KIND)), word(el, ENTRIES))
}

pub fn exit_count(el: &[Word]) -> Word
    ensures { result ≡ exit_count el.now }
{
    count_by(exits_of(word(el, KIND)), word(el, EXITS))
}

// Edge j of the list at a place: ENTRIES or EXITS.
pub fn edge_at(el: &[Word], list: Word, j: Word) -> Word
    ensures { result ≡ at el.now (edge_place list j) }
{
    word(el, (list as usize) + FIRST_EDGE + (j as usize))
}

// The condition of branch b.
pub fn condition_at(el: &[Word], b: Word) -> &[Word]
    ensures { result.now ≡ condition_at el.now b }
{
    tail(el, CONDITIONS + EXPRESSION_WORDS * (b as usize))
}

pub fn message_name(el: &[Word], b: Word) -> Word
    ensures { result ≡ message_name el.now b }
{
    word(el, MESSAGES + MESSAGE_WORDS * (b as usize))
}

pub fn message_length(el: &[Word], b: Word) -> Word
    ensures { result ≡ message_length el.now b }
{
    word(el, MESSAGES + MESSAGE_WORDS * (b as usize) + MESSAGE_LENGTH)
}

// Item j of the message of branch b.
pub fn item_at(el: &[Word], b: Word, j: Word) -> &[Word]
    ensures { result.now ≡ item_at el.now b j }
{
    tail(
        el,
        MESSAGES + MESSAGE_WORDS * (b as usize) + FIRST_ITEM + EXPRESSION_WORDS * (j as usize),
    )
}

pub fn assignment_count(el: &[Word]) -> Word
    ensures { result ≡ assignment_count el.now }
{
    word(el, ASSIGNMENT_COUNT)
}

pub fn assignment_at(el: &[Word], j: Word) -> &[Word]
    ensures { result.now ≡ assignment_at el.now j }
{
    tail(el, FIRST_ASSIGNMENT + ASSIGNMENT_WORDS * (j as usize))
}
