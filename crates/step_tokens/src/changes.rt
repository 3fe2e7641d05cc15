// What a move does to the tokens and counts of an instance, in place.
ghost use Rattle.std.specs.Prelude.{◌≡◌};
ghost use Rattle.base_words.specs.Iter.{iter};
ghost use Rattle.meaning.specs.Requirements.{first_touched, touched};
ghost use Rattle.meaning.specs.Changes.{taken, more, count_changed, active_changed, ready_changed, puts, cleared, moved};
ghost use Rattle.step_tokens.specs.Edges.{change_one};

use super::{edge_from, first_edge, touched_count};
use base_kinds::moves::{CLEARS, DOWN, Move, UP};
use base_state::places::DEFINED;
use base_state::{active_count, put_active, put_ready, put_tokens, ready_count, tokens_on};
use base_table::places::{ENTRIES, EXITS};
use base_table::{entry_count, exit_count, task_in};
use base_words::counts::COUNT_MOST;
use base_words::{Word, less_one, put};

// One more, and the most stays.
#[tactic(auto, using(base_words::proofs::PickLaws::picks), unfolding(meaning::specs::Changes::more))]
fn one_more(n: Word) -> Word
    ensures { result ≡ more n }
{
    if n < COUNT_MOST { n + 1 } else { n }
}

#[tactic(auto, using(base_words::proofs::PickLaws::picks), unfolding(meaning::specs::Changes::count_changed))]
fn count_after(cell: Word, n: Word) -> Word
    ensures { result ≡ count_changed cell n }
{
    if cell == UP {
        return one_more(n);
    }
    if cell == DOWN {
        return less_one(n);
    }
    n
}

// A token goes the way given, on edge j of those from edge f on, of a list.
#[tactic(auto, using(base_words::proofs::PickLaws::picks), unfolding(crate::specs::Edges::change_one))]
fn change_edge(el: &[Word], list: Word, way: Word, f: Word, j: Word, h: &mut [Word])
    ensures { h.new ≡ change_one el.now list way f j h.old }
{
    let e = edge_from(el, list, f, j);
    let n = count_after(way, tokens_on(h, e));
    put_tokens(h, e, n);
}

// On each edge that a cell of the table of moves means, of a list of n.
fn change_edges(el: &[Word], list: Word, way: Word, cell: Word, b: Word, n: Word, h: &mut [Word])
    ensures { h.new ≡ iter (change_one el.now list way (first_touched cell b)) h.old (touched cell n) }
{
    let f = first_edge(cell, b);
    let count = touched_count(cell, n);
    for j in 0..count {
        change_edge(el, list, way, f, j, h);
    }
}

// Takes the tokens of the entries.
pub fn take(el: &[Word], m: Move, b: Word, h: &mut [Word])
    ensures { h.new ≡ taken el.now m b h.old }
{
    change_edges(el, ENTRIES as Word, DOWN, m.takes, b, entry_count(el), h);
}

#[tactic(auto, using(base_words::proofs::PickLaws::picks), unfolding(meaning::specs::Changes::active_changed))]
fn change_active(el: &[Word], m: Move, h: &mut [Word])
    ensures { h.new ≡ active_changed el.now m h.old }
{
    let task = task_in(el);
    let n = count_after(m.active, active_count(h, task));
    put_active(h, task, n);
}

#[tactic(auto, using(base_words::proofs::PickLaws::picks), unfolding(meaning::specs::Changes::ready_changed))]
fn change_ready(el: &[Word], m: Move, h: &mut [Word])
    ensures { h.new ≡ ready_changed el.now m h.old }
{
    let task = task_in(el);
    let n = count_after(m.ready, ready_count(h, task));
    put_ready(h, task, n);
}

fn put_all(el: &[Word], m: Move, b: Word, h: &mut [Word])
    ensures { h.new ≡ puts el.now m b h.old }
{
    change_edges(el, EXITS as Word, UP, m.puts, b, exit_count(el), h);
}

fn clear(h: &mut [Word])
    ensures { h.new ≡ cleared h.old }
{
    for k in 0..DEFINED {
        put(h, k, 0);
    }
}

// All else, after the taking: counts, tokens of the exits, or the clearing.
#[tactic(auto, using(base_words::proofs::PickLaws::picks), unfolding(meaning::specs::Changes::moved))]
pub fn finish(el: &[Word], m: Move, b: Word, h: &mut [Word])
    ensures { h.new ≡ moved el.now m b h.old }
{
    if m.also == CLEARS {
        clear(h);
        return;
    }
    change_active(el, m, h);
    change_ready(el, m, h);
    put_all(el, m, b, h);
}
