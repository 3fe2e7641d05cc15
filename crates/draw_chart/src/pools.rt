// The lines of a pool: its elements with what belongs to them, the ends behind its message end events, its edges. i is its place in the table, p its process.
ghost use Rattle.std.specs.Prelude.{◌≡◌};
ghost use Rattle.draw_numbers.specs.Numbers.{count_before};
ghost use Rattle.draw_map.specs.Map.{Puts, within_line, element_line, branch_line, branch_lines, belonging, with_belonging, element_lines, is_message_end, end_place, with_end, end_lines, edge_line, lines_of, all_of, inside, with_inside};

use super::lines::put_line;
use base_kinds::moves::{END_SND, EVENT_BASED, START};
use base_table::places::ENTRIES;
use base_table::{edge_at, element_at};
use base_words::{GREATEST, Word};
use draw_kinds::counting::{SOURCE_IN, count_with, is_with};
use draw_numbers::numbers::{AN_EDGE, AN_ELEMENT, count_of, edge_of, is_of};
use draw_numbers::who::is_of_kind;
use draw_things::things::{Note, SEQUENCE_FLOW, next_number, place_of, target_of, within_of};
use write_buffer::least;

// Which lines are meant.
const THE_ELEMENTS: Word = 0;

const THE_ENDS: Word = 1;

const THE_EDGES: Word = 2;

fn put_within(out: &mut [u8], from: usize, table: &[Word], i: Word, e: Word, place: Word) -> usize
    ensures { Puts (within_line table.now i e place) from out.old result out.new }
{
    let edge = edge_at(element_at(table, i, e), ENTRIES as Word, 0);
    let xs: [Word; 3] = [next_number(i), edge, place];
    put_line(out, from, b"within", &xs)
}

fn put_element(out: &mut [u8], from: usize, i: Word, e: Word, place: Word) -> usize
    ensures { Puts (element_line i e place) from out.old result out.new }
{
    let xs: [Word; 3] = [next_number(i), e, place];
    put_line(out, from, b"element", &xs)
}

// A branch of gateway k, where flow j is one.
fn put_branch(out: &mut [u8], from: usize, i: Word, e: Word, w: &[Note], k: Note, j: Note) -> usize
    ensures { Puts (branch_line i e w.now k j) from out.old result out.new }
{
    if !is_with(SEQUENCE_FLOW, SOURCE_IN, k, w, j) {
        return from;
    }
    let b = count_with(SEQUENCE_FLOW, SOURCE_IN, k, w, j);
    let node = place_of(w, target_of(w, j));
    let xs: [Word; 5] = [next_number(i), e, b, place_of(w, j), node];
    put_line(out, from, b"branch", &xs)
}

fn put_branches(
    out: &mut [u8],
    from: usize,
    i: Word,
    e: Word,
    w: &[Note],
    n: Note,
    k: Note,
) -> usize
    ensures { Puts (branch_lines i e w.now n k) from out.old result out.new }
{
    let mut end = from;
    for j in 0..n {
        end = put_branch(out, end, i, e, w, k, j);
    }
    end
}

fn put_belonging(
    out: &mut [u8],
    from: usize,
    table: &[Word],
    w: &[Note],
    n: Note,
    i: Word,
    e: Word,
    k: Note,
) -> usize
    ensures { Puts (belonging table.now w.now n i e k) from out.old result out.new }
{
    if is_of_kind(START, w, k) {
        return put_within(out, from, table, i, e, place_of(w, k));
    }
    if is_of_kind(EVENT_BASED, w, k) {
        return put_branches(out, from, i, e, w, n, k);
    }
    from
}

fn put_with_belonging(
    out: &mut [u8],
    from: usize,
    table: &[Word],
    w: &[Note],
    n: Note,
    i: Word,
    e: Word,
    k: Note,
) -> usize
    ensures { Puts (with_belonging table.now w.now n i e k) from out.old result out.new }
{
    let head = put_element(out, from, i, e, place_of(w, k));
    put_belonging(out, head, table, w, n, i, e, k)
}

fn put_element_lines(
    out: &mut [u8],
    from: usize,
    table: &[Word],
    w: &[Note],
    n: Note,
    i: Word,
    p: Note,
    k: Note,
) -> usize
    ensures { Puts (element_lines table.now w.now n i p k) from out.old result out.new }
{
    if !is_of(AN_ELEMENT, p, w, k) {
        return from;
    }
    let e = count_of(AN_ELEMENT, p, w, k);
    put_with_belonging(out, from, table, w, n, i, e, k)
}

fn is_message_end(p: Note, w: &[Note], k: Note) -> bool
    ensures { result ≡ is_message_end p w.now k }
{
    is_of_kind(END_SND, w, k) && within_of(w, k) == p
}

fn count_message_ends(p: Note, w: &[Note], k: Note) -> Word
    ensures { result ≡ count_before (is_message_end p w.now) k }
{
    (0..k).filter(|&j| is_message_end(p, w, j)).count() as Word
}

fn end_place(w: &[Note], n: Note, p: Note, k: Note) -> Word
    ensures { result ≡ end_place w.now n p k }
{
    let elements = count_of(AN_ELEMENT, p, w, n);
    let ends = count_message_ends(p, w, k);
    least(elements as usize + ends as usize, GREATEST as usize) as Word
}

fn put_with_end(out: &mut [u8], from: usize, table: &[Word], i: Word, e: Word, place: Word) -> usize
    ensures { Puts (with_end table.now i e place) from out.old result out.new }
{
    let head = put_element(out, from, i, e, place);
    put_within(out, head, table, i, e, place)
}

fn put_end_lines(
    out: &mut [u8],
    from: usize,
    table: &[Word],
    w: &[Note],
    n: Note,
    i: Word,
    p: Note,
    k: Note,
) -> usize
    ensures { Puts (end_lines table.now w.now n i p k) from out.old result out.new }
{
    if !is_message_end(p, w, k) {
        return from;
    }
    let e = end_place(w, n, p, k);
    put_with_end(out, from, table, i, e, place_of(w, k))
}

fn put_edge(out: &mut [u8], from: usize, w: &[Note], i: Word, p: Note, k: Note) -> usize
    ensures { Puts (edge_line w.now i p k) from out.old result out.new }
{
    if !is_of(AN_EDGE, p, w, k) {
        return from;
    }
    let xs: [Word; 3] = [next_number(i), edge_of(w, k), place_of(w, k)];
    put_line(out, from, b"edge", &xs)
}

fn put_lines_of(
    out: &mut [u8],
    from: usize,
    class: Word,
    table: &[Word],
    w: &[Note],
    n: Note,
    i: Word,
    p: Note,
    k: Note,
) -> usize
    ensures { Puts (lines_of class table.now w.now n i p k) from out.old result out.new }
{
    if class == THE_ELEMENTS {
        return put_element_lines(out, from, table, w, n, i, p, k);
    }
    if class == THE_ENDS {
        return put_end_lines(out, from, table, w, n, i, p, k);
    }
    put_edge(out, from, w, i, p, k)
}

fn put_all_of(
    out: &mut [u8],
    from: usize,
    class: Word,
    table: &[Word],
    w: &[Note],
    n: Note,
    i: Word,
    p: Note,
) -> usize
    ensures { Puts (all_of class table.now w.now n i p) from out.old result out.new }
{
    let mut end = from;
    for k in 0..n {
        end = put_lines_of(out, end, class, table, w, n, i, p, k);
    }
    end
}

fn put_inside(
    out: &mut [u8],
    from: usize,
    table: &[Word],
    w: &[Note],
    n: Note,
    i: Word,
    p: Note,
) -> usize
    ensures { Puts (inside table.now w.now n i p) from out.old result out.new }
{
    let elements = put_all_of(out, from, THE_ELEMENTS, table, w, n, i, p);
    let ends = put_all_of(out, elements, THE_ENDS, table, w, n, i, p);
    put_all_of(out, ends, THE_EDGES, table, w, n, i, p)
}

// The pool that thing k is.
pub fn put_pool(
    out: &mut [u8],
    from: usize,
    table: &[Word],
    w: &[Note],
    n: Note,
    i: Word,
    p: Note,
    k: Note,
) -> usize
    ensures { Puts (with_inside table.now w.now n i p k) from out.old result out.new }
{
    let xs: [Word; 2] = [next_number(i), place_of(w, k)];
    let head = put_line(out, from, b"pool", &xs);
    put_inside(out, head, table, w, n, i, p)
}
