// Elements of a pool: which take a token from an edge, which are passed, which close a block.
ghost use Rattle.std.specs.Prelude.{◌≡◌, eqb};
ghost use Rattle.base_table.specs.Table.{element_count, element_at};
ghost use Rattle.check_tally.specs.Tally.{marked, tally};
ghost use Rattle.check_nesting.specs.Nesting.{starts, passes, closes, entries_of};
ghost use Rattle.check_nested.specs.Splits.{splits};
ghost use Rattle.check_nesting.specs.Deciding.{entry_of, takes, taker, edges_in, same_edges, is_block, closing_join};

use base_kinds::moves::{
    AND_JOIN, AND_SPLIT, EVENT_BASED, INTER_RCV, INTER_SND, START, START_RCV, TASK, TASK_RCV,
    TASK_SND, XOR_JOIN, XOR_SPLIT,
};
use base_table::places::ENTRIES;
use base_table::{edge_at, element_at, element_count, entry_count, kind_in};
use base_words::counts::EDGES;
use base_words::{GREATEST, Word, word};
use check_tally::mark;

// The words of a tally of edges.
pub const EDGE_TALLY: usize = EDGES as usize + 1;

#[tactic(auto, unfolding(check_nesting::specs::Nesting::starts))]
pub fn starts(el: &[Word]) -> bool
    ensures { result ≡ starts el.now }
{
    matches!(kind_in(el), START | START_RCV)
}

#[tactic(auto, unfolding(check_nesting::specs::Nesting::passes))]
pub fn passes(el: &[Word]) -> bool
    ensures { result ≡ passes el.now }
{
    matches!(
        kind_in(el),
        INTER_RCV | INTER_SND | TASK | TASK_RCV | TASK_SND
    )
}

#[tactic(auto, unfolding(crate::specs::Splits::splits))]
pub fn splits(el: &[Word]) -> bool
    ensures { result ≡ splits el.now }
{
    matches!(kind_in(el), AND_SPLIT | XOR_SPLIT | EVENT_BASED)
}

#[tactic(auto, unfolding(check_nesting::specs::Nesting::closes, check_nesting::specs::Nesting::closes_all, check_nesting::specs::Nesting::closes_one))]
fn closes(el: &[Word], join: &[Word]) -> bool
    ensures { result ≡ closes el.now join.now }
{
    let k = kind_in(el);
    match kind_in(join) {
        AND_JOIN => k == AND_SPLIT,
        XOR_JOIN => k == XOR_SPLIT || k == EVENT_BASED,
        _ => false,
    }
}

fn entry_of(el: &[Word], a: Word) -> Word
    ensures { result ≡ entry_of el.now a }
{
    let n = entry_count(el);
    (0..n)
        .find(|&j| edge_at(el, ENTRIES as Word, j) == a)
        .unwrap_or(n)
}

#[tactic(auto, unfolding(check_nesting::specs::Deciding::takes))]
fn takes(el: &[Word], a: Word) -> bool
    ensures { result ≡ takes el.now a }
{
    entry_of(el, a) < entry_count(el)
}

fn takes_at(t: &[Word], p: Word, k: Word, a: Word) -> bool
    ensures { result ≡ takes (element_at t.now p k) a }
{
    takes(element_at(t, p, k), a)
}

// The element of a pool that takes a token from the edge a; their count where there is none.
pub fn taker(t: &[Word], p: Word, a: Word) -> Word
    ensures { result ≡ taker (element_at t.now p) (element_count t.now p) a }
{
    let n = element_count(t, p);
    (0..n).find(|&k| takes_at(t, p, k, a)).unwrap_or(n)
}

// One mark more at the place v.
pub fn mark_one(s: &mut [Word], v: Word)
    ensures { s.new ≡ marked s.old v }
{
    mark(s, 0, GREATEST, v as usize);
}

fn mark_entries(s: &mut [Word], el: &[Word])
    ensures { s.new ≡ tally s.old (entries_of el.now) }
{
    for j in 0..entry_count(el) {
        mark_one(s, edge_at(el, ENTRIES as Word, j));
    }
}

// Word by word and no `==` of slices: `closing` takes a slice of any length, and what it lacks reads 0.
fn same_edges(s: &[Word], e: &[Word]) -> bool
    ensures { result ≡ same_edges s.now e.now }
{
    (0..EDGE_TALLY).all(|f| word(s, f) == word(e, f))
}

// Whether the edges of a tally are the entries of an element.
#[tactic(auto, unfolding(check_nesting::specs::Deciding::edges_in))]
fn are_entries(s: &[Word], el: &[Word]) -> bool
    ensures { result ≡ same_edges s.now (edges_in (entries_of el.now)) }
{
    let mut e = [0; EDGE_TALLY];
    mark_entries(&mut e, el);
    same_edges(s, &e)
}

#[tactic(auto, unfolding(check_nesting::specs::Deciding::is_block))]
fn is_block(t: &[Word], p: Word, s: &[Word], k: Word, j: Word) -> bool
    ensures { result ≡ is_block (element_at t.now p) (element_count t.now p) s.now k j }
{
    let join = element_at(t, p, j);
    j < element_count(t, p) && closes(element_at(t, p, k), join) && are_entries(s, join)
}

// The join that closes the split k, one of whose branches stops at the edge a, the tally s telling where all of them do; the count of elements where none does.
#[tactic(auto, using(base_words::proofs::PickLaws::picks), unfolding(check_nesting::specs::Deciding::closing_join))]
pub fn closing(t: &[Word], p: Word, k: Word, a: Word, s: &[Word]) -> Word
    ensures { result ≡ closing_join (element_at t.now p) (element_count t.now p) k a s.now }
{
    let j = taker(t, p, a);
    if is_block(t, p, s, k, j) {
        j
    } else {
        element_count(t, p)
    }
}
