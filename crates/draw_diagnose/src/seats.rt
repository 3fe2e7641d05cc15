// Where a check is broken, or room is missing.
ghost use Rattle.std.specs.Prelude.{◌≡◌};
ghost use Rattle.check_occurrences.specs.Occurrences.{default_once};
ghost use Rattle.draw_model.specs.Drawn.{element_drawn};
ghost use Rattle.draw_model.specs.Content.{process_of};
ghost use Rattle.draw_diagnose.specs.Seats.{is_kind_in, count_kind, is_misstarted, is_many, is_unasked, is_crowded, is_pool_seat, joins_own, is_own_message, has_defaults, is_seat, first_seat, seat_at};

use base_kinds::moves::{END_SND, START, START_RCV};
use base_table::places::ELEMENT_WORDS;
use base_words::Word;
use base_words::counts::{EDGES, ELEMENTS};
use check_occurrences::default_once;
use draw_kinds::counting::{WITHIN_IN, first_with, of_sort};
use draw_links::is_node_at;
use draw_model::element::element_drawn;
use draw_numbers::numbers::{AN_EDGE, AN_ELEMENT, count_of};
use draw_numbers::who::{has_participants, is_of_kind, is_pool, is_split};
use draw_things::things::{
    MESSAGE_FLOW, Note, PARTICIPANT_MULTIPLICITY, place_of, source_of, target_of, within_of,
};

// The checks that a drawing can break.
const ONE_START: usize = 2;

const START_RECEIVES: usize = 3;

const NAMES_APART: usize = 6;

const ONE_DEFAULT: usize = 7;

fn is_kind_in(c: Word, p: Note, w: &[Note], j: Note) -> bool
    ensures { result ≡ is_kind_in c p w.now j }
{
    is_of_kind(c, w, j) && within_of(w, j) == p
}

fn count_kind(c: Word, p: Note, w: &[Note], n: Note) -> Word
    ensures { result ≡ count_kind c p w.now n }
{
    (0..n).filter(|&j| is_kind_in(c, p, w, j)).count() as Word
}

fn is_misstarted(w: &[Note], n: Note, p: Note) -> bool
    ensures { result ≡ is_misstarted w.now n p }
{
    let plain = count_kind(START, p, w, n);
    let receiving = count_kind(START_RCV, p, w, n);
    plain as usize + receiving as usize != 1
}

fn is_many(w: &[Note], n: Note, k: Note) -> bool
    ensures { result ≡ is_many w.now n k }
{
    first_with(PARTICIPANT_MULTIPLICITY, WITHIN_IN, k, w, n) < n
}

fn is_unasked(w: &[Note], n: Note, p: Note, k: Note) -> bool
    ensures { result ≡ is_unasked w.now n p k }
{
    is_many(w, n, k) && count_kind(START, p, w, n) != 0
}

fn is_crowded(w: &[Note], n: Note, p: Note) -> bool
    ensures { result ≡ is_crowded w.now n p }
{
    let ends = count_kind(END_SND, p, w, n) as usize;
    let elements = count_of(AN_ELEMENT, p, w, n) as usize;
    if elements + ends > ELEMENTS as usize {
        return true;
    }
    let edges = count_of(AN_EDGE, p, w, n) as usize;
    let starts = count_kind(START, p, w, n) as usize;
    edges + starts + ends > EDGES as usize
}

fn is_pool_seat(check: usize, w: &[Note], n: Note, p: Note, k: Note) -> bool
    ensures { result ≡ is_pool_seat check w.now n p k }
{
    if check == ONE_START {
        return is_misstarted(w, n, p);
    }
    if check == START_RECEIVES {
        return is_unasked(w, n, p, k);
    }
    is_crowded(w, n, p)
}

fn joins_own(w: &[Note], a: Note, b: Note) -> bool
    ensures { result ≡ joins_own w.now a b }
{
    is_node_at(w, a) && (is_node_at(w, b) && within_of(w, a) == within_of(w, b))
}

fn is_own_message(w: &[Note], k: Note) -> bool
    ensures { result ≡ is_own_message w.now k }
{
    of_sort(MESSAGE_FLOW, w, k) && joins_own(w, source_of(w, k), target_of(w, k))
}

fn is_once(x: &[Word; ELEMENT_WORDS]) -> bool
    ensures { result ≡ default_once x.now }
{
    default_once(x)
}

fn has_one_default(text: &[u8], w: &[Note], n: Note, k: Note) -> bool
    ensures { result ≡ default_once (element_drawn text.now w.now n k) }
{
    let mut x = [0; ELEMENT_WORDS];
    element_drawn(text, w, n, k, &mut x);
    is_once(&x)
}

fn has_defaults(text: &[u8], w: &[Note], n: Note, k: Note) -> bool
    ensures { result ≡ has_defaults text.now w.now n k }
{
    is_split(w, k) && !has_one_default(text, w, n, k)
}

fn process_of(owned: bool, w: &[Note], k: Note) -> Note
    ensures { result ≡ process_of owned w.now k }
{
    if owned { source_of(w, k) } else { k }
}

fn is_seat(check: usize, owned: bool, text: &[u8], w: &[Note], n: Note, k: Note) -> bool
    ensures { result ≡ is_seat check owned text.now w.now n k }
{
    if check == NAMES_APART {
        return is_own_message(w, k);
    }
    if check == ONE_DEFAULT {
        return has_defaults(text, w, n, k);
    }
    is_pool(owned, w, k) && is_pool_seat(check, w, n, process_of(owned, w, k), k)
}

fn first_seat(check: usize, text: &[u8], w: &[Note], n: Note) -> Note
    ensures { result ≡ first_seat check text.now w.now n }
{
    let owned = has_participants(w, n);
    (0..n)
        .find(|&k| is_seat(check, owned, text, w, n, k))
        .unwrap_or(n)
}

// The place of the first thing that breaks a check; with 0, of the first pool without room.
pub fn seat_at(check: usize, text: &[u8], w: &[Note], n: Note) -> usize
    ensures { result ≡ seat_at check text.now w.now n }
{
    let k = first_seat(check, text, w, n);
    if k < n {
        return place_of(w, k) as usize;
    }
    0
}
