// Things of a sort, and of a word in a column, found and counted.
ghost use Rattle.std.specs.Prelude.{◌≡◌};
ghost use Rattle.draw_kinds.specs.Counting.{column, is_with, count_with, first_with, of_sort, count_sort};

use base_words::Word;
use draw_things::things::{Note, THING_WORDS, note_at, sort_of};

// The columns of a thing.
pub const WITHIN_IN: Note = 2;

pub const SOURCE_IN: Note = 3;

pub const TARGET_IN: Note = 4;

fn column(c: Note, w: &[Note], j: Note) -> Note
    ensures { result ≡ column c w.now j }
{
    note_at(w, THING_WORDS * (j as usize) + c as usize)
}

// Whether thing j is of sort s and has v in column c.
#[tactic(auto, unfolding(crate::specs::Counting::is_with))]
pub fn is_with(s: Note, c: Note, v: Note, w: &[Note], j: Note) -> bool
    ensures { result ≡ is_with s c v w.now j }
{
    sort_of(w, j) == s && column(c, w, j) == v
}

// How many of the first n things are so.
pub fn count_with(s: Note, c: Note, v: Note, w: &[Note], n: Note) -> Word
    ensures { result ≡ count_with s c v w.now n }
{
    (0..n).filter(|&j| is_with(s, c, v, w, j)).count() as Word
}

// The first of the first n things that is so; n where none is.
pub fn first_with(s: Note, c: Note, v: Note, w: &[Note], n: Note) -> Note
    ensures { result ≡ first_with s c v w.now n }
{
    (0..n).find(|&j| is_with(s, c, v, w, j)).unwrap_or(n)
}

// Whether thing j is of sort s.
#[tactic(auto, unfolding(crate::specs::Counting::of_sort))]
pub fn of_sort(s: Note, w: &[Note], j: Note) -> bool
    ensures { result ≡ of_sort s w.now j }
{
    sort_of(w, j) == s
}

// How many of the first n things are of sort s.
pub fn count_sort(s: Note, w: &[Note], n: Note) -> Word
    ensures { result ≡ count_sort s w.now n }
{
    (0..n).filter(|&j| of_sort(s, w, j)).count() as Word
}
