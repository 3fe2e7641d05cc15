// Whether tokens and counts permit a move (12), and whether there is room for what it puts and raises (18).
ghost use Rattle.std.specs.Prelude.{◌≡◌};
ghost use Rattle.base_words.specs.All.{all};
ghost use Rattle.meaning.specs.Requirements.{first_touched, touched, has_tokens, can_lower, waits, is_alone, counts_permit, has_rooms, can_raise, roomy};
ghost use Rattle.step_tokens.specs.Edges.{allows};

use super::{edge_from, first_edge, touched_count};
use base_kinds::moves::{DOWN, Move, NA_NC, ON, UP};
use base_state::versions::{FORMER, version_seen};
use base_state::{active_count, ready_count, tokens_on};
use base_table::places::{ENTRIES, EXITS};
use base_table::{entry_count, exit_count, mode_in, task_in};
use base_words::Word;
use base_words::counts::COUNT_MOST;

// Edge j of those from edge f on, of a list: a token that goes DOWN is there (12), one that goes UP finds room (18).
#[tactic(auto, using(base_words::proofs::PickLaws::picks), unfolding(crate::specs::Edges::allows))]
fn edge_allows(el: &[Word], h: &[Word], list: Word, way: Word, f: Word, j: Word) -> bool
    ensures { result ≡ allows el.now h.now list way f j }
{
    let n = tokens_on(h, edge_from(el, list, f, j));
    if way == DOWN {
        return 0 < n;
    }
    n < COUNT_MOST
}

// Each edge that a cell of the table of moves means, of a list of n.
fn edges_allow(el: &[Word], h: &[Word], list: Word, way: Word, cell: Word, b: Word, n: Word) -> bool
    ensures { result ≡ all (allows el.now h.now list way (first_touched cell b)) (touched cell n) }
{
    let f = first_edge(cell, b);
    let count = touched_count(cell, n);
    (0..count).all(|j| edge_allows(el, h, list, way, f, j))
}

// 12.
fn has_tokens(el: &[Word], h: &[Word], m: Move, b: Word) -> bool
    ensures { result ≡ has_tokens el.now h.now m b }
{
    edges_allow(el, h, ENTRIES as Word, DOWN, m.takes, b, entry_count(el))
}

#[tactic(auto, using(base_words::proofs::PickLaws::picks), unfolding(meaning::specs::Requirements::can_lower))]
fn can_lower(cell: Word, n: Word) -> bool
    ensures { result ≡ can_lower cell n }
{
    cell != DOWN || 0 < n
}

// Under the former version every na task waits.
#[tactic(auto, using(base_words::proofs::PickLaws::picks), unfolding(meaning::specs::Requirements::waits))]
fn must_wait(el: &[Word], h: &[Word]) -> bool
    ensures { result ≡ waits el.now h.now }
{
    mode_in(el) == NA_NC || version_seen(h) == FORMER
}

#[tactic(auto, using(base_words::proofs::PickLaws::picks), unfolding(meaning::specs::Requirements::is_alone))]
fn is_alone(el: &[Word], h: &[Word], m: Move) -> bool
    ensures { result ≡ is_alone el.now h.now m }
{
    if m.alone == ON && must_wait(el, h) {
        let task = task_in(el);
        return active_count(h, task) == 0 && ready_count(h, task) == 0;
    }
    true
}

#[tactic(auto, using(base_words::proofs::PickLaws::picks), unfolding(meaning::specs::Requirements::counts_permit))]
pub fn permits(el: &[Word], h: &[Word], m: Move, b: Word) -> bool
    ensures { result ≡ counts_permit el.now h.now m b }
{
    let task = task_in(el);
    has_tokens(el, h, m, b)
        && can_lower(m.active, active_count(h, task))
        && can_lower(m.ready, ready_count(h, task))
        && is_alone(el, h, m)
}

// 18, of the instance after the taking.
fn has_rooms(el: &[Word], h: &[Word], m: Move, b: Word) -> bool
    ensures { result ≡ has_rooms el.now h.now m b }
{
    edges_allow(el, h, EXITS as Word, UP, m.puts, b, exit_count(el))
}

#[tactic(auto, using(base_words::proofs::PickLaws::picks), unfolding(meaning::specs::Requirements::can_raise))]
fn can_raise(cell: Word, n: Word) -> bool
    ensures { result ≡ can_raise cell n }
{
    cell != UP || n < COUNT_MOST
}

#[tactic(auto, using(base_words::proofs::PickLaws::picks), unfolding(meaning::specs::Requirements::roomy))]
pub fn is_roomy(el: &[Word], h: &[Word], m: Move, b: Word) -> bool
    ensures { result ≡ roomy el.now h.now m b }
{
    let task = task_in(el);
    has_rooms(el, h, m, b)
        && can_raise(m.active, active_count(h, task))
        && can_raise(m.ready, ready_count(h, task))
}
