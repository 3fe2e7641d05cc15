// The text of a table: its pools and their elements, as the table of kinds has their parts. Each writer writes from a place on, as far
// as the lent buffer goes, and returns the place behind its text; each element's writer is lent the part of the buffer from the place reached.
#![tactic(auto)]

ghost use Rattle.std.specs.Prelude.{◌≡◌, ◌+◌, length};
ghost use Rattle.base_words.specs.Words.{at};
ghost use Rattle.base_kinds.specs.Kinds.{keyword_of};
ghost use Rattle.base_table.specs.Places.{limit_place};
ghost use Rattle.write_buffer.specs.Buffers.{over, lesser, last_place, Put};
ghost use Rattle.write_shown.specs.Shown.{shown_part, shown_element, shown_elements, shown_limit, shown_pool, shown_pools, shown_table};
ghost use Rattle.write_shown.specs.Lengths.{part_most, parts_most, keyword_most, element_most, elements_most, limit_most, contents_most, numbered_most, enclosed_most, pool_word_most, pool_most, pools_most};
ghost use Rattle.write_table.specs.Pieces.{signed, parts, contents, numbered, pool_enclosed, pool_word, next_pool};

use base_kinds::{keyword_of, letters_of, parts_of};
use base_table::places::{ENTRIES, EXITS, FIRST_POOL, LIMIT, POOL_WORDS};
use base_table::{edge_at, element_at, element_count, kind_in, pool_count};
use base_words::counts::POOLS;
use base_words::{Word, word};
use write_buffer::{put_byte, put_bytes};
use write_decimals::put_number;
use write_phrases::{put_branches, put_edge_list, put_guarded_list, put_message, put_task};
use write_shown::put_lead;

// The part with a code of the table of kinds.
fn put_part(out: &mut [u8], from: usize, c: u8, el: &[Word]) -> usize
    ensures { Put (shown_part c el.now) part_most from out.old result out.new }
{
    match c {
        b'E' => put_number(out, from, edge_at(el, ENTRIES as Word, 0)),
        b'X' => put_number(out, from, edge_at(el, EXITS as Word, 0)),
        b'F' => put_edge_list(out, from, el, ENTRIES as Word),
        b'Y' => put_edge_list(out, from, el, EXITS as Word),
        b'N' => put_task(out, from, el),
        b'T' => put_message(out, from, el, 0),
        b'S' => put_message(out, from, el, 0),
        b'G' => put_guarded_list(out, from, el),
        _ => put_branches(out, from, el, true),
    }
}

// A part behind its sign.
fn put_signed(out: &mut [u8], from: usize, sign: u8, c: u8, el: &[Word]) -> usize
    ensures { Put (signed sign c el.now) (1 + part_most) from out.old result out.new }
{
    let first = put_byte(out, from, sign);
    put_part(out, first, c, el)
}

// The parts of an element, in the order of the table of kinds.
fn put_parts(out: &mut [u8], from: usize, el: &[Word]) -> usize
    ensures { Put (parts el.now) parts_most from out.old result out.new }
{
    let codes = parts_of(kind_in(el));
    let mut sign = b'(';
    let mut end = from;
    for c in codes {
        if c == b' ' {
            return end;
        }
        end = put_signed(out, end, sign, c, el);
        sign = b',';
    }
    end
}

// The keyword of a kind.
fn put_keyword(out: &mut [u8], from: usize, k: Word) -> usize
    ensures { Put (keyword_of k) keyword_most from out.old result out.new }
{
    let letters = letters_of(k) as usize;
    let keyword = keyword_of(k);
    put_bytes(out, from, &keyword[..letters])
}

// An element, from the start of the part of the buffer that is lent.
fn put_element(out: &mut [u8], el: &[Word]) -> usize
    ensures { Put (shown_element el.now) element_most 0 out.old result out.new }
{
    let keyword = put_keyword(out, 0, kind_in(el));
    let end = put_parts(out, keyword, el);
    put_byte(out, end, b')')
}

fn put_elements(out: &mut [u8], from: usize, t: &[Word], p: Word) -> usize
    ensures { Put (shown_elements t.now p) elements_most from out.old result out.new }
{
    let n = element_count(t, p);
    let mut end = from;
    for e in 0..n {
        let bar = put_lead(out, end, b'|', e);
        let rest = bar.min(out.len());
        let length = put_element(&mut out[rest..], element_at(t, p, e));
        end = bar.saturating_add(length);
    }
    end
}

// The limit of a miPool, behind its comma.
fn put_limit(out: &mut [u8], from: usize, n: Word) -> usize
    ensures { Put (shown_limit n) limit_most from out.old result out.new }
{
    if n == 0 {
        return from;
    }
    let comma = put_byte(out, from, b',');
    put_number(out, comma, n)
}

fn limit_at(t: &[Word], p: Word) -> Word
    ensures { result ≡ at t.now (limit_place p) }
{
    word(t, FIRST_POOL + POOL_WORDS * (p as usize) + LIMIT)
}

// What a pool has behind its number: the elements, and the limit of a miPool.
fn put_contents(out: &mut [u8], from: usize, t: &[Word], p: Word) -> usize
    ensures { Put (contents t.now p) contents_most from out.old result out.new }
{
    let elements = put_elements(out, from, t, p);
    put_limit(out, elements, limit_at(t, p))
}

// What stands between them.
fn put_numbered(out: &mut [u8], from: usize, t: &[Word], p: Word) -> usize
    ensures { Put (numbered t.now p) numbered_most from out.old result out.new }
{
    let number = put_number(out, from, word(t, FIRST_POOL + POOL_WORDS * (p as usize)));
    let comma = put_byte(out, number, b',');
    put_contents(out, comma, t, p)
}

// A pool from its opening sign to its closing one.
fn put_enclosed(out: &mut [u8], from: usize, t: &[Word], p: Word) -> usize
    ensures { Put (pool_enclosed t.now p) enclosed_most from out.old result out.new }
{
    let opener = put_byte(out, from, b'(');
    let end = put_numbered(out, opener, t, p);
    put_byte(out, end, b')')
}

// The keyword of a pool by its limit, n.
fn put_pool_word(out: &mut [u8], from: usize, n: Word) -> usize
    ensures { Put (pool_word n) pool_word_most from out.old result out.new }
{
    if n == 0 {
        return put_bytes(out, from, b"pool");
    }
    put_bytes(out, from, b"miPool")
}

fn put_pool(out: &mut [u8], from: usize, t: &[Word], p: Word) -> usize
    ensures { Put (shown_pool t.now p) pool_most from out.old result out.new }
{
    let keyword = put_pool_word(out, from, limit_at(t, p));
    put_enclosed(out, keyword, t, p)
}

// The pool at a place, behind its bar; nothing where there is none.
fn put_next_pool(out: &mut [u8], from: usize, t: &[Word], p: Word) -> usize
    ensures { Put (next_pool t.now p) (1 + pool_most) from out.old result out.new }
{
    if p < pool_count(t) {
        let bar = put_lead(out, from, b'|', p);
        return put_pool(out, bar, t, p);
    }
    from
}

fn put_pools(out: &mut [u8], from: usize, t: &[Word]) -> usize
    ensures { Put (shown_pools t.now) pools_most from out.old result out.new }
{
    let mut end = from;
    for p in 0..POOLS {
        end = put_next_pool(out, end, t, p);
    }
    end
}

// The text of a table, and its length as far as there are places: the words may count more than any memory holds.
pub fn put_table(t: &[Word], out: &mut [u8]) -> usize
    ensures { (result ≡ lesser (length (shown_table t.now)) last_place) × (out.new ≡ over (shown_table t.now) out.old) }
{
    let end = put_pools(out, 0, t);
    put_byte(out, end, b'\n')
}
