// What the first pass notes of a pool behind its summary, so that it is known whether there is room for what its endSnds become.
#![tactic(auto)]

ghost use Rattle.std.specs.Prelude.{◌≡◌, ◌+◌, eqb, take};
ghost use Rattle.base_words.specs.Words.{at};
ghost use Rattle.text_ends.specs.Rewriting.{is_end_snd};
ghost use Rattle.text_ends.specs.Room.{used_from, ends_with, count_noted, element_noted, free_by, room_by, room_noted};

use base_kinds::moves::END_SND;
use base_table::kind_in;
use base_table::places::{ENTRIES, EXITS};
use base_words::counts::{BRANCHES, EDGES, ELEMENTS};
use base_words::{Word, one_more, put, word};
use check_summary::{SUMMARY_WORDS, mark_list};
use check_verdict::MODEL_WORDS;

// The notes of a pool: the count of its elements, of its endSnds, and the edges that are mentioned.
const COUNT: usize = SUMMARY_WORDS;

const ENDS: usize = COUNT + 1;

const USED_FROM: Word = ENDS as Word + 1;

// A pool's summary with these notes behind it.
pub const NOTED_WORDS: usize = USED_FROM as usize + 1 + EDGES as usize;

// The word behind a model's tally: not 0 where a pool has no room.
pub const ROOM: usize = MODEL_WORDS;

pub const JUDGED_WORDS: usize = ROOM + 1;

// The first n words.
pub fn head(s: &[Word], n: usize) -> &[Word]
    ensures { result.now ≡ take n s.now }
{
    if n <= s.len() {
        return &s[..n];
    }
    s
}

pub fn is_end_snd(el: &[Word]) -> bool
    ensures { result ≡ is_end_snd el.now }
{
    kind_in(el) == END_SND
}

fn ends_with(el: &[Word], s: &[Word]) -> Word
    ensures { result ≡ ends_with el.now s.now }
{
    let n = word(s, ENDS);
    if is_end_snd(el) {
        return one_more(n);
    }
    n
}

fn count_element(s: &mut [Word], count: Word, el: &[Word])
    ensures { s.new ≡ count_noted count el.now s.old }
{
    let ends = ends_with(el, s);
    put(s, COUNT, count);
    put(s, ENDS, ends);
}

// An element of a pool, the count-th.
pub fn note_element(s: &mut [Word], count: Word, el: &[Word])
    ensures { s.new ≡ element_noted count el.now s.old }
{
    count_element(s, count, el);
    mark_list(s, USED_FROM, el, ENTRIES as Word, BRANCHES);
    mark_list(s, USED_FROM, el, EXITS as Word, BRANCHES);
}

// Whether the edge k + 1 is not mentioned.
fn is_free(s: &[Word], k: Word) -> bool
    ensures { result ≡ eqb (at s.now (used_from + (k + 1))) 0 }
{
    word(s, USED_FROM as usize + (k as usize + 1)) == 0
}

fn free_by(s: &[Word]) -> usize
    ensures { result ≡ free_by s.now }
{
    (0..EDGES).filter(|&k| is_free(s, k)).count()
}

fn room_by(s: &[Word]) -> bool
    ensures { result ≡ room_by s.now }
{
    let ends = word(s, ENDS) as usize;
    ends <= free_by(s) && word(s, COUNT) as usize + ends <= ELEMENTS as usize
}

// A pool behind its elements, by its notes s.
pub fn note_room(w: &mut [Word], s: &[Word])
    ensures { w.new ≡ room_noted s.now w.old }
{
    if !room_by(s) {
        put(w, ROOM, 1);
    }
}
