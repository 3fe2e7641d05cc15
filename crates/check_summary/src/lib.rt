// The summary of a pool's elements.
#![tactic(auto)]

ghost use Rattle.std.specs.Prelude.{◌≡◌, ◌+◌, not};
ghost use Rattle.base_words.specs.Sum.{one_if};
ghost use Rattle.base_words.specs.Words.{at};
ghost use Rattle.base_words.specs.Counts.{edges, names};
ghost use Rattle.base_table.specs.Places.{edge_place};
ghost use Rattle.base_table.specs.Table.{message_name};
ghost use Rattle.check_tally.specs.Tally.{marked, place, tally, region_marks, marks_of};
ghost use Rattle.check_summary.specs.Summary.{first_count, edge_region, name_region, edge_regions, head_regions, name_regions, flag_regions, regions};

use base_kinds::moves::{START, START_RCV};
use base_table::places::{ENTRIES, EXITS};
use base_table::{edge_at, entry_count, exit_count, kind_in, message_name, task_in};
use base_words::counts::{EDGES, NAMES, TASKS};
use base_words::{Word, wide};
use check_occurrences::{bound_once, default_once, received_count, sent_count};
use check_tally::{mark, mark_region};

// Where the regions of a summary start.
pub const EXITS_FROM: Word = 0;

pub const ENTRIES_FROM: Word = EXITS_FROM + 1 + EDGES;

pub const FIRSTS_FROM: Word = ENTRIES_FROM + 1 + EDGES;

pub const TASKS_FROM: Word = FIRSTS_FROM + 1 + EDGES;

pub const STARTS_FROM: Word = TASKS_FROM + 1 + TASKS;

pub const RECEIVED_FROM: Word = STARTS_FROM + 1 + START_RCV;

pub const SENT_FROM: Word = RECEIVED_FROM + 1 + NAMES;

pub const DEFAULTS_FROM: Word = SENT_FROM + 1 + NAMES;

pub const BINDS_FROM: Word = DEFAULTS_FROM + 1 + 1;

pub const SUMMARY_WORDS: usize = BINDS_FROM as usize + 1 + 1;

// The first n edges of a list.
#[tactic(auto, unfolding(crate::specs::Summary::edge_region))]
pub fn mark_list(s: &mut [Word], from: Word, el: &[Word], list: Word, n: Word)
    ensures { s.new ≡ tally s.old (region_marks (edge_region from el.now list n)) }
{
    mark_region(s, from, EDGES, n, |j| wide(edge_at(el, list, j)));
}

#[tactic(auto, unfolding(crate::specs::Summary::first_count))]
fn first_count(el: &[Word]) -> Word
    ensures { result ≡ first_count el.now }
{
    Word::from(kind_in(el) == START)
}

// What an element has is read before a mark is set: then the compiler reads each word once.
fn mark_edges(s: &mut [Word], el: &[Word])
    ensures { s.new ≡ tally s.old (marks_of (edge_regions el.now)) }
{
    let exits = exit_count(el);
    let entries = entry_count(el);
    let firsts = first_count(el);
    mark_list(s, EXITS_FROM, el, EXITS as Word, exits);
    mark_list(s, ENTRIES_FROM, el, ENTRIES as Word, entries);
    mark_list(s, FIRSTS_FROM, el, ENTRIES as Word, firsts);
}

fn mark_head(s: &mut [Word], el: &[Word])
    ensures { s.new ≡ tally s.old (marks_of (head_regions el.now)) }
{
    let task = task_in(el);
    let kind = kind_in(el);
    mark(s, TASKS_FROM, TASKS, wide(task));
    mark(s, STARTS_FROM, START_RCV, wide(kind));
}

// The first n message names.
#[tactic(auto, unfolding(crate::specs::Summary::name_region))]
fn mark_some(s: &mut [Word], from: Word, el: &[Word], n: Word)
    ensures { s.new ≡ tally s.old (region_marks (name_region from el.now n)) }
{
    mark_region(s, from, NAMES, n, |j| wide(message_name(el, j)) + 1);
}

fn mark_names(s: &mut [Word], el: &[Word])
    ensures { s.new ≡ tally s.old (marks_of (name_regions el.now)) }
{
    let received = received_count(el);
    let sent = sent_count(el);
    mark_some(s, RECEIVED_FROM, el, received);
    mark_some(s, SENT_FROM, el, sent);
}

// 1 for what is not kept.
fn broken(kept: bool) -> usize
    ensures { result ≡ one_if (not kept) }
{
    usize::from(!kept)
}

fn mark_flags(s: &mut [Word], el: &[Word])
    ensures { s.new ≡ tally s.old (marks_of (flag_regions el.now)) }
{
    let defaults = broken(default_once(el));
    let binds = broken(bound_once(el));
    mark(s, DEFAULTS_FROM, 1, defaults);
    mark(s, BINDS_FROM, 1, binds);
}

// One element more in the summary of its pool.
pub fn mark_element(s: &mut [Word], el: &[Word])
    ensures { s.new ≡ tally s.old (marks_of (regions el.now)) }
{
    mark_edges(s, el);
    mark_head(s, el);
    mark_names(s, el);
    mark_flags(s, el);
}
