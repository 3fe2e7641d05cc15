// A drawing read into a lent table: judged first, so that a refusal changes nothing; then its model fills the table.
#![tactic(auto)]

ghost use Rattle.std.specs.Prelude.{◌≡◌, true, false, map, ℕ, ltb};
ghost use Rattle.base_words.specs.Each.{each};
ghost use Rattle.text_read.specs.Notation.{table_of, rewritten, has_room};
ghost use Rattle.draw_model.specs.Content.{content};
ghost use Rattle.draw_faults.specs.Amiss.{is_drawing};
ghost use Rattle.draw_limits.specs.Excess.{first_beyond};
ghost use Rattle.xml_skip.specs.Skipping.{fault_at};
ghost use Rattle.draw_read.specs.Drawings.{not_xml, answer, checked_as, meant_by, settled_by, filled_by, draw_into};

use base_table::places::TABLE_WORDS;
use base_words::numbers::{ACCEPTED, EXCESSIVE, NOT_RUN, NOT_XML, TOO_LONG};
use base_words::{Word, clear};
use draw_faults::is_drawing;
use draw_kinds::settle_kinds;
use draw_limits::{beyond_at, first_beyond};
use draw_links::links;
use draw_model::keep_content;
use draw_things::things::{BLOCK_WORDS, Note, ROOM};
use draw_walk::walk;
use text_ends::JUDGED_WORDS;
use text_read::{Reading, answer_for};
use text_rewrite::rewrite;
use xml_skip::Fault;

// Bytes of a drawing.
pub const DRAWING_MOST: usize = 65536;

fn answer(number: Word, beside: usize) -> Reading
    ensures { result ≡ answer number beside }
{
    Reading {
        number: number,
        beside: beside,
    }
}

// What is answered to the model of a drawing that is not beyond the limits.
fn checked(text: &[u8], w: &[Note], n: Note) -> Reading
    ensures { ltb (first_beyond text.now w.now n) n ≡ false → result ≡ checked_as (content text.now w.now n) }
{
    let mut m = [0; JUDGED_WORDS];
    keep_content(false, text, w, n, &mut m);
    answer_for(&m)
}

// The answer to a drawing whose walk met the things w.
fn meant(text: &[u8], w: &[Note], n: Note) -> Reading
    ensures { result ≡ meant_by text.now w.now n }
{
    if !is_drawing(text, w, n) {
        return answer(NOT_RUN, 0);
    }
    let k = first_beyond(text, w, n);
    if k < n {
        return answer(EXCESSIVE, beyond_at(text, w, k));
    }
    checked(text, w, n)
}

// The table of a drawing that is not beyond the limits.
fn fill(text: &[u8], w: &[Note], n: Note, t: &mut [Word; TABLE_WORDS])
    ensures { ltb (first_beyond text.now w.now n) n ≡ false → each has_room (content text.now w.now n) ≡ true → t.new ≡ table_of (map rewritten (content text.now w.now n)) }
{
    clear(t);
    keep_content(true, text, w, n, t);
    rewrite(t);
}

fn judge(text: &[u8], w: &[Note], n: Note, t: &mut [Word; TABLE_WORDS]) -> Reading
    ensures { record { number = result.number; beside = result.beside; table = t.new } ≡ filled_by (meant_by text.now w.now n) (content text.now w.now n) t.old }
{
    let a = meant(text, w, n);
    if a.number != ACCEPTED {
        return a;
    }
    fill(text, w, n, t);
    a
}

// Joins flows and settles kinds; no where that shows what is drawn to be amiss.
fn settle(text: &[u8], w: &mut [Note], n: Note) -> bool
    ensures { (result ≡ true → w.new ≡ settled_by text.now n w.old) × (result ≡ false → is_drawing text.now (settled_by text.now n w.old) n ≡ false) }
{
    if n as usize > ROOM {
        return false;
    }
    links(text, w, n);
    settle_kinds(w, n)
}

fn stopped(end: Result<usize, Fault>) -> Reading
    ensures { (q : ℕ) → end ≡ fault_at q → result ≡ answer not_xml q }
{
    match end {
        Ok(_) => answer(ACCEPTED, 0),
        Err(f) => answer(NOT_XML, f.place),
    }
}

// Reads a drawing into the table: 1, 20, 21, 3, 4 or 28, and the table stays; else 0, and every word of the table is the model's.
pub fn draw_into(text: &[u8], t: &mut [Word; TABLE_WORDS]) -> Reading
    ensures { record { number = result.number; beside = result.beside; table = t.new } ≡ draw_into text.now t.old }
{
    if text.len() > DRAWING_MOST {
        return answer(TOO_LONG, 0);
    }
    let mut w = [0; BLOCK_WORDS];
    let met = walk(text, &mut w);
    let n = met.count;
    let end = met.end;
    let Ok(_) = end else {
        return stopped(end);
    };
    if !settle(text, &mut w, n) {
        return answer(NOT_RUN, 0);
    }
    judge(text, &w, n, t)
}
