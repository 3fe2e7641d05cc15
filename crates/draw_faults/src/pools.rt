// What is amiss with pools: R18, R19, R20.
ghost use Rattle.std.specs.Prelude.{true, ◌≡◌};
ghost use Rattle.base_words.specs.Seek.{seek};
ghost use Rattle.draw_faults.specs.Amiss.{is_second_collaboration, is_lost, is_unowned, is_second, is_outside};
ghost use Rattle.draw_numbers.specs.Who.{has_participants};
ghost use Rattle.draw_faults.specs.Once.{is_odd, Plain};

use super::has;
use draw_kinds::counting::{SOURCE_IN, WITHIN_IN, count_sort, count_with, of_sort};
use draw_numbers::who::has_participants;
use draw_things::things::{COLLABORATION, Note, PARTICIPANT, PROCESS, source_of, within_of};

// Whether a collaboration stands before collaboration k.
#[tactic(auto, unfolding(crate::specs::Amiss::is_second_collaboration))]
pub fn is_second_collaboration(w: &[Note], k: Note) -> bool
    ensures { result ≡ is_second_collaboration w.now k }
{
    of_sort(COLLABORATION, w, k) && 0 < count_sort(COLLABORATION, w, k)
}

// Whether participant k names no process.
#[tactic(auto, unfolding(crate::specs::Amiss::is_lost))]
pub fn is_lost(text: &[u8], w: &[Note], k: Note) -> bool
    ensures { result ≡ is_lost text.now w.now k }
{
    of_sort(PARTICIPANT, w, k) && (has(text, b"processRef", w, k) && source_of(w, k) == 0)
}

// Whether process k belongs to no participant, or to two.
#[tactic(auto, unfolding(crate::specs::Amiss::is_unowned))]
pub fn is_unowned(w: &[Note], n: Note, k: Note) -> bool
    ensures { result ≡ is_unowned w.now n k }
{
    of_sort(PROCESS, w, k)
        && (has_participants(w, n) && count_with(PARTICIPANT, SOURCE_IN, k, w, n) != 1)
}

// Whether one of the same sort stands before thing k in the same thing.
#[tactic(auto, unfolding(crate::specs::Amiss::is_second))]
pub fn is_second(s: Note, w: &[Note], k: Note) -> bool
    ensures { result ≡ is_second s w.now k }
{
    of_sort(s, w, k) && 0 < count_with(s, WITHIN_IN, within_of(w, k), w, k)
}

// Whether thing j is a participant without a process.
#[tactic(auto, unfolding(crate::specs::Amiss::is_outside))]
pub fn is_outside(text: &[u8], w: &[Note], j: Note) -> bool
    ensures { result ≡ is_outside text.now w.now j }
{
    of_sort(PARTICIPANT, w, j) && !has(text, b"processRef", w, j)
}

// Whether the source of participant j doesn't say whether it is outside.
#[tactic(auto, using(base_words::proofs::PickLaws::picks), unfolding(crate::specs::Once::is_odd))]
fn is_odd(text: &[u8], w: &[Note], j: Note) -> bool
    ensures { result ≡ is_odd text.now w.now j }
{
    if !of_sort(PARTICIPANT, w, j) {
        return false;
    }
    if has(text, b"processRef", w, j) {
        return source_of(w, j) == 0;
    }
    source_of(w, j) != 0
}

// The first such participant; n where there is none.
pub fn first_odd(text: &[u8], w: &[Note], n: Note) -> Note
    ensures { result ≡ seek (is_odd text.now w.now) n }
{
    (0..n).find(|&j| is_odd(text, w, j)).unwrap_or(n)
}

// Whether thing j is a participant without a process, by its source where all participants are plain.
pub fn is_outside_by(plain: bool, n: Note, text: &[u8], w: &[Note], j: Note) -> bool
    ensures { (plain ≡ true → Plain text.now w.now n) → result ≡ is_outside text.now w.now j }
{
    if !plain {
        return is_outside(text, w, j);
    }
    if n <= j {
        return is_outside(text, w, j);
    }
    of_sort(PARTICIPANT, w, j) && source_of(w, j) == 0
}

// Whether process k belongs to no participant, or to two, where it is known whether there are participants.
#[tactic(auto, unfolding(crate::specs::Amiss::is_unowned))]
pub fn is_unowned_by(owned: bool, w: &[Note], n: Note, k: Note) -> bool
    ensures { owned ≡ has_participants w.now n → result ≡ is_unowned w.now n k }
{
    of_sort(PROCESS, w, k) && (owned && count_with(PARTICIPANT, SOURCE_IN, k, w, n) != 1)
}
