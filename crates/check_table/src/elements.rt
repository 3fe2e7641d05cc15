// Whether an element is within the limits: a kind, and what its row of the table of kinds says.
ghost use Rattle.std.specs.Prelude.{◌≡◌, drop, length, ◌+◌, ◌≤◌};
ghost use Rattle.base_words.specs.Words.{at};
ghost use Rattle.base_words.specs.Counts.{branches, assignments};
ghost use Rattle.base_kinds.specs.Kinds.{many, kind_of, used};
ghost use Rattle.base_table.specs.Places.{entries_place, exits_place, expression_words, message_words, assignment_words, element_words};
ghost use Rattle.check_limits.specs.Limits.{things, condition_fits, message_fits, assignment_fits, count_fits, edge_fits, edges_fit, task_fits, conditions_fit, messages_fit, assignments_fit, parts_fit, element_fits};

use super::parts::{assignment_fits, condition_fits, message_fits};
use super::things::things_fit;
use base_kinds::moves::{A, NA_NC};
use base_kinds::{
    MANY, ONE, conditions_of, count_by, entries_of, exits_of, letters_of, receives_of, sends_of,
    task_of,
};
use base_table::places::{
    ASSIGNMENT_COUNT, ASSIGNMENT_WORDS, ELEMENT_WORDS, ENTRIES, EXITS, EXPRESSION_WORDS,
    FIRST_EDGE, MESSAGE_WORDS, MESSAGES, MODE, TASK,
};
use base_table::{assignment_at, assignment_count, condition_at, kind_in};
use base_words::counts::{ASSIGNMENTS, BRANCHES, EDGES, FEWEST, TASKS};
use base_words::{Word, tail, word};
use check_limits::zeros::is_within;

// A list of edges: its count, and the edges, a word each.
const COUNT: usize = 0;

const EDGE_WORDS: Word = 1;

#[tactic(auto, using(base_words::proofs::PickLaws::picks), unfolding(check_limits::specs::Limits::count_fits))]
fn count_fits(column: Word, x: &[Word]) -> bool
    ensures { result ≡ count_fits column (at x.now 0) }
{
    if column == MANY {
        is_within(x, COUNT, FEWEST, BRANCHES)
    } else {
        word(x, COUNT) == column
    }
}

#[tactic(auto, unfolding(check_limits::specs::Limits::edge_fits))]
fn edge_fits(x: &[Word]) -> bool
    ensures { result ≡ edge_fits x.now }
{
    is_within(x, 0, 1, EDGES)
}

// The edges of a list.
fn listed_fit(x: &[Word]) -> bool
    ensures { result ≡ things (drop 1 x.now) 1 branches (at x.now 0) edge_fits }
{
    things_fit(
        tail(x, FIRST_EDGE),
        EDGE_WORDS,
        BRANCHES,
        word(x, COUNT),
        edge_fits,
    )
}

#[tactic(auto, unfolding(check_limits::specs::Limits::edges_fit))]
fn edges_fit(column: Word, x: &[Word]) -> bool
    ensures { result ≡ edges_fit column x.now }
{
    count_fits(column, x) && listed_fit(x)
}

// The entries and the exits of an element.
fn entries_fit(kind: Word, el: &[Word]) -> bool
    ensures { result ≡ edges_fit (kind_of kind).entries (drop entries_place el.now) }
{
    edges_fit(entries_of(kind), tail(el, ENTRIES))
}

fn exits_fit(kind: Word, el: &[Word]) -> bool
    ensures { result ≡ edges_fit (kind_of kind).exits (drop exits_place el.now) }
{
    edges_fit(exits_of(kind), tail(el, EXITS))
}

#[tactic(auto, using(base_words::proofs::PickLaws::picks), unfolding(check_limits::specs::Limits::task_fits))]
fn task_fits(kind: Word, el: &[Word]) -> bool
    ensures { result ≡ task_fits (kind_of kind).task el.now }
{
    if task_of(kind) == ONE {
        is_within(el, TASK, 1, TASKS)
            && is_within(el, MODE, A, NA_NC)
            && word(el, ASSIGNMENT_COUNT) <= ASSIGNMENTS
    } else {
        word(el, TASK) == 0 && word(el, MODE) == 0 && word(el, ASSIGNMENT_COUNT) == 0
    }
}

#[tactic(auto, unfolding(check_limits::specs::Limits::conditions_fit))]
fn conditions_fit(kind: Word, el: &[Word]) -> bool
    ensures { result ≡ conditions_fit (kind_of kind).conditions el.now }
{
    let conditions = conditions_of(kind);
    things_fit(
        condition_at(el, 0),
        EXPRESSION_WORDS as Word,
        BRANCHES,
        count_by(conditions, word(el, EXITS)),
        |x| condition_fits(conditions, x),
    )
}

// How many messages there are, received or sent.
#[tactic(auto, using(base_words::proofs::PickLaws::picks), unfolding(base_kinds::specs::Kinds::used))]
fn message_count(receives: Word, sends: Word, n: Word) -> Word
    requires { (receives ≤ many) × (sends ≤ many) }
    ensures { result ≡ used (receives + sends) n }
{
    let both = receives + sends;
    if both == MANY { n } else { both }
}

#[tactic(auto, unfolding(check_limits::specs::Limits::messages_fit))]
fn messages_fit(kind: Word, el: &[Word]) -> bool
    ensures { result ≡ messages_fit (kind_of kind).receives (kind_of kind).sends el.now }
{
    let receives = receives_of(kind);
    things_fit(
        tail(el, MESSAGES),
        MESSAGE_WORDS as Word,
        BRANCHES,
        message_count(receives, sends_of(kind), word(el, EXITS)),
        |x| message_fits(receives, x),
    )
}

#[tactic(auto, unfolding(check_limits::specs::Limits::assignments_fit))]
fn assignments_fit(el: &[Word]) -> bool
    ensures { result ≡ assignments_fit el.now }
{
    things_fit(
        assignment_at(el, 0),
        ASSIGNMENT_WORDS as Word,
        ASSIGNMENTS,
        assignment_count(el),
        assignment_fits,
    )
}

#[tactic(auto, unfolding(check_limits::specs::Limits::parts_fit))]
fn parts_fit(kind: Word, el: &[Word]) -> bool
    ensures { result ≡ parts_fit (kind_of kind) el.now }
{
    task_fits(kind, el)
        && entries_fit(kind, el)
        && exits_fit(kind, el)
        && conditions_fit(kind, el)
        && messages_fit(kind, el)
        && assignments_fit(el)
}

#[tactic(auto, unfolding(check_limits::specs::Limits::element_fits))]
fn row_fits(el: &[Word]) -> bool
    ensures { result ≡ element_fits el.now }
{
    let kind = kind_in(el);
    letters_of(kind) != 0 && parts_fit(kind, el)
}

// Whether an element is within the limits; its words are cut out, so that the compiler knows how many there are.
pub fn element_fits(el: &[Word]) -> bool
    requires { element_words ≤ length el.now }
    ensures { result ≡ element_fits el.now }
{
    row_fits(&el[..ELEMENT_WORDS])
}
