// Which node is which number: the map of a drawing, written line by line into a lent buffer, as far as it goes.
#![tactic(auto)]

ghost use Rattle.std.specs.Prelude.{◌≡◌, length};
ghost use Rattle.write_buffer.specs.Buffers.{over, lesser, last_place};
ghost use Rattle.draw_walk.specs.Walk.{Walk};
ghost use Rattle.draw_model.specs.Content.{process_of};
ghost use Rattle.draw_read.specs.Drawings.{settled_by, walked_text, things_of};
ghost use Rattle.draw_map.specs.Map.{Puts, pool_lines, outside_line, message_line, part_of, every_of, map_of, map_text};

use base_table::places::TABLE_WORDS;
use base_words::Word;
use base_words::numbers::ACCEPTED;
use draw_faults::pools::is_outside;
use draw_kinds::counting::of_sort;
use draw_kinds::roles;
use draw_links::links;
use draw_numbers::numbers::{count_pools, message_of};
use draw_numbers::who::{has_participants, is_pool};
use draw_read::draw_into;
use draw_things::things::{BLOCK_WORDS, MESSAGE_FLOW, Note, place_of, source_of};
use draw_walk::walk;
use lines::put_line;
use pools::put_pool;
use write_buffer::put_bytes;
use write_lines::put_unread;

pub mod lines;
pub mod pools;

// Which lines are meant.
const THE_POOLS: Word = 0;

const THE_OUTSIDERS: Word = 1;

const THE_MESSAGES: Word = 2;

fn process_of(owned: bool, w: &[Note], k: Note) -> Note
    ensures { result ≡ process_of owned w.now k }
{
    if owned { source_of(w, k) } else { k }
}

fn put_pool_lines(
    out: &mut [u8],
    from: usize,
    owned: bool,
    table: &[Word],
    w: &[Note],
    n: Note,
    k: Note,
) -> usize
    ensures { Puts (pool_lines owned table.now w.now n k) from out.old result out.new }
{
    if !is_pool(owned, w, k) {
        return from;
    }
    let i = count_pools(owned, w, k);
    let p = process_of(owned, w, k);
    put_pool(out, from, table, w, n, i, p, k)
}

fn put_outside(out: &mut [u8], from: usize, text: &[u8], w: &[Note], k: Note) -> usize
    ensures { Puts (outside_line text.now w.now k) from out.old result out.new }
{
    if !is_outside(text, w, k) {
        return from;
    }
    let xs: [Word; 1] = [place_of(w, k)];
    put_line(out, from, b"outside", &xs)
}

fn put_message(out: &mut [u8], from: usize, w: &[Note], k: Note) -> usize
    ensures { Puts (message_line w.now k) from out.old result out.new }
{
    if !of_sort(MESSAGE_FLOW, w, k) {
        return from;
    }
    let xs: [Word; 2] = [message_of(w, k), place_of(w, k)];
    put_line(out, from, b"message", &xs)
}

fn put_part(
    out: &mut [u8],
    from: usize,
    class: Word,
    owned: bool,
    text: &[u8],
    table: &[Word],
    w: &[Note],
    n: Note,
    k: Note,
) -> usize
    ensures { Puts (part_of class owned text.now table.now w.now n k) from out.old result out.new }
{
    if class == THE_POOLS {
        return put_pool_lines(out, from, owned, table, w, n, k);
    }
    if class == THE_OUTSIDERS {
        return put_outside(out, from, text, w, k);
    }
    put_message(out, from, w, k)
}

fn put_every(
    out: &mut [u8],
    from: usize,
    class: Word,
    text: &[u8],
    table: &[Word],
    w: &[Note],
    n: Note,
) -> usize
    ensures { Puts (every_of class text.now table.now w.now n) from out.old result out.new }
{
    let owned = has_participants(w, n);
    let mut end = from;
    for k in 0..n {
        end = put_part(out, end, class, owned, text, table, w, n, k);
    }
    end
}

// The map of what is drawn, by the table that it means.
fn put_drawn(out: &mut [u8], text: &[u8], table: &[Word], w: &[Note], n: Note) -> usize
    ensures { Puts (map_of text.now table.now w.now n) 0 out.old result out.new }
{
    let pools = put_every(out, 0, THE_POOLS, text, table, w, n);
    let outsiders = put_every(out, pools, THE_OUTSIDERS, text, table, w, n);
    let messages = put_every(out, outsiders, THE_MESSAGES, text, table, w, n);
    put_bytes(out, messages, b"end\n")
}

fn settle(text: &[u8], w: &mut [Note], n: Note)
    ensures { w.new ≡ settled_by text.now n w.old }
{
    links(text, w, n);
    roles(w, n);
}

// The map of an accepted drawing: its walk again, with its table.
fn put_accepted(out: &mut [u8], text: &[u8], table: &[Word; TABLE_WORDS]) -> usize
    ensures { Puts (map_of text.now table.now (things_of text.now) (walked_text text.now).count) 0 out.old result out.new }
{
    let mut w = [0; BLOCK_WORDS];
    let met = walk(text, &mut w);
    let n = met.count;
    settle(text, &mut w, n);
    put_drawn(out, text, table, &w, n)
}

// The map of a drawing, or the line of its refusal, at the buffer's start, as far as the buffer goes; its length, as far as there are places.
pub fn put_map(text: &[u8], out: &mut [u8]) -> usize
    ensures { (result ≡ lesser (length (map_text text.now)) last_place) × (out.new ≡ over (map_text text.now) out.old) }
{
    let mut table: [Word; TABLE_WORDS] = [0; TABLE_WORDS];
    let r = draw_into(text, &mut table);
    if r.number != ACCEPTED {
        return put_unread(out, 0, r.number, r.beside);
    }
    put_accepted(out, text, &table)
}
