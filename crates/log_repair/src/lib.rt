// A log that ended in the middle: the text up to its last whole event, and the end tags of what is open.
#![tactic(auto)]

ghost use Rattle.std.specs.Prelude.{◌≡◌, ◌-◌, length};
ghost use Rattle.write_buffer.specs.Buffers.{over, lesser, last_place, Put};
ghost use Rattle.xml_skip.specs.Skipping.{fault_at};
ghost use Rattle.log_repair.specs.Repair.{end_tag, trace_end, closing_tags, closed, is_lost, Repair, refused, repair_given, repaired_by, repaired_to};

use base_bytes::piece;
use base_words::Word;
use base_words::counts::TEXT_MOST;
use base_words::numbers::{ACCEPTED, NOT_CUT, TOO_SHORT};
use log_text::cursors::back;
use log_text::{Cursor, scan};
use write_buffer::put_bytes;
use xml_markup::scanning::markup;
use xml_markup::spans::{bytes_of, name_at};
use xml_skip::{Tag, tag_of};

// A number; beside 0 the length written, the events kept and the bytes dropped.
#[repr(C)]
#[derive(Clone, Copy)]
pub struct Repaired {
    pub number: Word,
    pub length: usize,
    pub kept: usize,
    pub dropped: usize,
}

// The end tag of the element whose tag is at a place.
fn put_end_tag(text: &[u8], p: usize, out: &mut [u8], from: usize) -> usize
    ensures { Put (end_tag text.now p) (length (end_tag text.now p)) from out.old result out.new }
{
    let opened = put_bytes(out, from, b"</");
    let named = put_bytes(out, opened, bytes_of(text, name_at(text, p)));
    put_bytes(out, named, b">")
}

fn put_trace_end(tag: Tag, text: &[u8], p: usize, out: &mut [u8], from: usize) -> usize
    ensures { Put (trace_end tag text.now p) (length (trace_end tag text.now p)) from out.old result out.new }
{
    match tag {
        Tag::Open(_) => put_end_tag(text, p, out, from),
        Tag::Empty(_) => from,
        Tag::Fault(_) => from,
    }
}

// The end tags of what is open.
fn put_closing(text: &[u8], c: Cursor, out: &mut [u8], from: usize) -> usize
    ensures { Put (closing_tags text.now c) (length (closing_tags text.now c)) from out.old result out.new }
{
    let tag = tag_of(markup(text, c.trace), c.trace);
    let behind = put_trace_end(tag, text, c.trace, out, from);
    put_end_tag(text, c.log, out, behind)
}

// What is kept, and the end tags.
fn put_closed(text: &[u8], c: Cursor, out: &mut [u8]) -> usize
    ensures { (result ≡ lesser (length (closed text.now c)) last_place) × (out.new ≡ over (closed text.now c) out.old) }
{
    let kept = put_bytes(out, 0, piece(text, 0, c.kept));
    put_closing(text, c, out, kept)
}

// Its length: writing into a buffer of one byte measures it.
fn closed_length(text: &[u8], c: Cursor) -> usize
    ensures { result ≡ lesser (length (closed text.now c)) last_place }
{
    let mut none = [0u8; 1];
    put_closed(text, c, &mut none)
}

fn refused(number: Word) -> Repaired
    ensures { result ≡ record { number = number; length = 0; kept = 0; dropped = 0 } }
{
    Repaired {
        number,
        length: 0,
        kept: 0,
        dropped: 0,
    }
}

fn give_whole(text: &[u8], c: Cursor, out: &mut [u8]) -> Repaired
    ensures { record { number = result.number; length = result.length; kept = result.kept; dropped = result.dropped; buffer = out.new } ≡ repair_given text.now c.events 0 out.old }
{
    if TEXT_MOST < text.len() {
        return refused(TOO_SHORT);
    }
    if out.len() < text.len() {
        return refused(TOO_SHORT);
    }
    let end = put_bytes(out, 0, text);
    Repaired {
        number: ACCEPTED,
        length: end,
        kept: c.events,
        dropped: 0,
    }
}

fn give_closed(text: &[u8], c: Cursor, out: &mut [u8]) -> Repaired
    ensures { record { number = result.number; length = result.length; kept = result.kept; dropped = result.dropped; buffer = out.new } ≡ repair_given (closed text.now c) c.events (length text.now - c.kept) out.old }
{
    let n = closed_length(text, c);
    if TEXT_MOST < n {
        return refused(TOO_SHORT);
    }
    if out.len() < n {
        return refused(TOO_SHORT);
    }
    let end = put_closed(text, c, out);
    Repaired {
        number: ACCEPTED,
        length: end,
        kept: c.events,
        dropped: back(text.len(), c.kept),
    }
}

// Whether a text at fault at a place cannot be repaired.
#[tactic(auto, using(base_words::proofs::PickLaws::picks, std::proofs::lemmas::Bool::Decides::nat_tests), unfolding(crate::specs::Repair::is_lost))]
fn is_lost(q: usize, text: &[u8], c: Cursor) -> bool
    ensures { result ≡ is_lost q text.now c }
{
    q < text.len() || c.opened == 0
}

fn give_broken(q: usize, text: &[u8], c: Cursor, out: &mut [u8]) -> Repaired
    ensures { record { number = result.number; length = result.length; kept = result.kept; dropped = result.dropped; buffer = out.new } ≡ repaired_by (fault_at q) text.now c out.old }
{
    if is_lost(q, text, c) {
        return refused(NOT_CUT);
    }
    give_closed(text, c, out)
}

// Repairs a log into the lent buffer: 27, then 5, and the buffer stays; else 0, and the log is written.
pub fn repair_into(text: &[u8], out: &mut [u8]) -> Repaired
    ensures { record { number = result.number; length = result.length; kept = result.kept; dropped = result.dropped; buffer = out.new } ≡ repaired_to text.now out.old }
{
    let s = scan(text);
    match s.end {
        Ok(_) => give_whole(text, s.last, out),
        Err(f) => give_broken(f.place, text, s.last, out),
    }
}
