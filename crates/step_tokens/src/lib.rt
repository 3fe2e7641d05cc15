// What a move asks of the tokens and counts of an instance, and what it does to them.
#![tactic(auto)]

ghost use Rattle.std.specs.Prelude.{◌≡◌};
ghost use Rattle.meaning.specs.Requirements.{touched, first_touched, branch_count, instance_named, below_limit};
ghost use Rattle.step_tokens.specs.Edges.{edge_from};

use base_kinds::moves::{BRANCH, EVERY, MAKES, Move};
use base_table::places::FIRST_EDGE;
use base_table::{entry_count, exit_count};
use base_words::{Word, word};

pub mod changes;
pub mod permission;

// How many of n edges a cell of the table of moves means.
#[tactic(auto, using(base_words::proofs::PickLaws::picks), unfolding(meaning::specs::Requirements::touched))]
pub fn touched_count(cell: Word, n: Word) -> Word
    ensures { result ≡ touched cell n }
{
    if cell == EVERY {
        return n;
    }
    if cell == BRANCH {
        return 1;
    }
    0
}

// From which edge on.
#[tactic(auto, using(base_words::proofs::PickLaws::picks), unfolding(meaning::specs::Requirements::first_touched))]
pub fn first_edge(cell: Word, b: Word) -> Word
    ensures { result ≡ first_touched cell b }
{
    if cell == BRANCH {
        return b;
    }
    0
}

// Edge j of those from edge f on, of the list at a place: ENTRIES or EXITS.
pub fn edge_from(el: &[Word], list: Word, f: Word, j: Word) -> Word
    ensures { result ≡ edge_from el.now list f j }
{
    word(
        el,
        (list as usize) + FIRST_EDGE + ((f as usize) + (j as usize)),
    )
}

// How many branches an element has.
#[tactic(auto, using(base_words::proofs::PickLaws::picks), unfolding(meaning::specs::Requirements::branch_count))]
pub fn branch_count(el: &[Word], m: Move) -> Word
    ensures { result ≡ branch_count el.now m }
{
    if m.takes == BRANCH {
        return entry_count(el);
    }
    if m.puts == BRANCH {
        return exit_count(el);
    }
    1
}

// Whether instance i may be named: the next one where the move makes it, else a made one.
#[tactic(auto, using(base_words::proofs::PickLaws::picks), unfolding(meaning::specs::Requirements::instance_named))]
pub fn is_named(m: Move, i: Word, made: Word) -> bool
    ensures { result ≡ instance_named m i made }
{
    if m.also == MAKES {
        return i == made;
    }
    i < made
}

// 16: an instance that the move makes is within the pool's limit.
#[tactic(auto, using(base_words::proofs::PickLaws::picks), unfolding(meaning::specs::Requirements::below_limit))]
pub fn is_below_limit(m: Move, made: Word, limit: Word) -> bool
    ensures { result ≡ below_limit m made limit }
{
    if m.also == MAKES {
        return made < limit;
    }
    true
}
