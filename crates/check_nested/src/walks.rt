// A walk through a pool, along its edges: where it stops, and what is met on the way. A split is passed with all its branches, if they run into a join that closes it.
ghost use Rattle.std.specs.Prelude.{◌≡◌, ◌∷◌, ◌++◌};
ghost use Rattle.base_table.specs.Table.{element_count, element_at, exit_count, exit_at};
ghost use Rattle.check_tally.specs.Tally.{tally};
ghost use Rattle.check_nesting.specs.Nesting.{passes, exits_of};
ghost use Rattle.check_nested.specs.Splits.{splits};
ghost use Rattle.check_nesting.specs.Deciding.{stops, elements_passed, last_in, join_of, ahead, sequence_walk};

use super::blocks::{EDGE_TALLY, closing, mark_one, passes, splits, taker};
use base_table::places::EXITS;
use base_table::{edge_at, element_at, element_count, exit_count};
use base_words::Word;

pub fn exit_at(t: &[Word], p: Word, k: Word, j: Word) -> Word
    ensures { result ≡ exit_at (element_at t.now p k) j }
{
    edge_at(element_at(t, p, k), EXITS as Word, j)
}

fn exits_at(t: &[Word], p: Word, k: Word) -> Word
    ensures { result ≡ exit_count (element_at t.now p k) }
{
    exit_count(element_at(t, p, k))
}

fn passes_at(t: &[Word], p: Word, k: Word) -> bool
    ensures { result ≡ passes (element_at t.now p k) }
{
    passes(element_at(t, p, k))
}

fn splits_at(t: &[Word], p: Word, k: Word) -> bool
    ensures { result ≡ splits (element_at t.now p k) }
{
    splits(element_at(t, p, k))
}

// Marks where the branches of the split k stop, and says where the last of them does.
#[cycle(stop)]
fn walk_branches(t: &[Word], p: Word, n: Word, k: Word, s: &mut [Word]) -> Word
    ensures { (result ≡ last_in (stops (sequence_walk (element_at t.now p) (element_count t.now p) n) (exits_of (element_at t.now p k)))) × (s.new ≡ tally s.old (stops (sequence_walk (element_at t.now p) (element_count t.now p) n) (exits_of (element_at t.now p k)))) }
{
    let m = exits_at(t, p, k);
    let mut a: Word = 0;
    for j in 0..m {
        a = stop_of(t, p, n, exit_at(t, p, k, j));
        mark_one(s, a);
    }
    a
}

// The join that closes the split k; the count of elements where none does. What opens no block has none, and its exits are not walked: a walk through a join would go round a loop again and again.
#[cycle(stop)]
fn join_of(t: &[Word], p: Word, n: Word, k: Word) -> Word
    ensures { result ≡ join_of (element_at t.now p) (element_count t.now p) (sequence_walk (element_at t.now p) (element_count t.now p) n) k }
{
    if !splits_at(t, p, k) {
        return element_count(t, p);
    }
    let mut s = [0; EDGE_TALLY];
    let a = walk_branches(t, p, n, k, &mut s);
    closing(t, p, k, a, &s)
}

// On from the edge a by the element k that takes from it.
#[cycle(stop)]
fn stop_ahead(t: &[Word], p: Word, n: Word, a: Word, k: Word) -> Word
    ensures { result ≡ (ahead (element_at t.now p) (element_count t.now p) (sequence_walk (element_at t.now p) (element_count t.now p) n) a k).stop }
{
    if passes_at(t, p, k) {
        return stop_of(t, p, n, exit_at(t, p, k, 0));
    }
    let j = join_of(t, p, n, k);
    if j < element_count(t, p) {
        return stop_of(t, p, n, exit_at(t, p, j, 0));
    }
    a
}

// Where a walk from the edge a stops that goes by at most n elements, one behind or within the other.
#[cycle(stop)]
pub fn stop_of(t: &[Word], p: Word, n: Word, a: Word) -> Word
    ensures { result ≡ (sequence_walk (element_at t.now p) (element_count t.now p) n a).stop }
{
    if n == 0 {
        return a;
    }
    let k = taker(t, p, a);
    if k >= element_count(t, p) {
        return a;
    }
    stop_ahead(t, p, n - 1, a, k)
}

#[cycle(mark)]
fn mark_branches(t: &[Word], p: Word, n: Word, k: Word, m: &mut [Word])
    ensures { m.new ≡ tally m.old (elements_passed (sequence_walk (element_at t.now p) (element_count t.now p) n) (exits_of (element_at t.now p k))) }
{
    let most = exits_at(t, p, k);
    for j in 0..most {
        mark_way(t, p, n, exit_at(t, p, k, j), m);
    }
}

#[cycle(mark)]
fn mark_block(t: &[Word], p: Word, n: Word, k: Word, j: Word, m: &mut [Word])
    ensures { m.new ≡ tally m.old (k ∷ j ∷ (elements_passed (sequence_walk (element_at t.now p) (element_count t.now p) n) (exits_of (element_at t.now p k)) ++ (sequence_walk (element_at t.now p) (element_count t.now p) n (exit_at (element_at t.now p j) 0)).on)) }
{
    mark_one(m, k);
    mark_one(m, j);
    mark_branches(t, p, n, k, m);
    mark_way(t, p, n, exit_at(t, p, j, 0), m);
}

#[cycle(mark)]
fn mark_ahead(t: &[Word], p: Word, n: Word, a: Word, k: Word, m: &mut [Word])
    ensures { m.new ≡ tally m.old (ahead (element_at t.now p) (element_count t.now p) (sequence_walk (element_at t.now p) (element_count t.now p) n) a k).on }
{
    if passes_at(t, p, k) {
        mark_one(m, k);
        mark_way(t, p, n, exit_at(t, p, k, 0), m);
        return;
    }
    let j = join_of(t, p, n, k);
    if j < element_count(t, p) {
        mark_block(t, p, n, k, j, m);
    }
}

// Marks the elements on the way of a walk.
#[cycle(mark)]
pub fn mark_way(t: &[Word], p: Word, n: Word, a: Word, m: &mut [Word])
    ensures { m.new ≡ tally m.old (sequence_walk (element_at t.now p) (element_count t.now p) n a).on }
{
    if n == 0 {
        return;
    }
    let k = taker(t, p, a);
    if k >= element_count(t, p) {
        return;
    }
    mark_ahead(t, p, n - 1, a, k, m);
}
