// A log, read from left to right: the first fault of its text, and how far its whole events go.
#![tactic(auto, using(base_words::proofs::PickLaws::picks, std::proofs::lemmas::Bool::Decides::nat_tests), unfolding(crate::specs::Logs::left_by, crate::specs::Logs::by_inside, crate::specs::Logs::advance, crate::specs::Logs::begin_by, crate::specs::Logs::begin, crate::specs::Logs::start))]

ghost use Rattle.std.specs.Prelude.{◌≡◌};
ghost use Rattle.log_text.specs.Logs.{left_by, by_inside, advance, scan_from, begin_by, begin, start, scan};

use cursors::{back, behind_event, behind_trace, in_log, lacks_by, nowhere, reached, tag_by};
use elements::entered_by;
use within::inside_at;
use xml_document::around::{last_from, root_at};
use xml_markup::Class;
use xml_markup::scanning::markup;
use xml_markup::spans::run;
use xml_skip::{Fault, Tag, tag_of};

pub mod cursors;
pub mod elements;
pub mod within;

// A log is so long at most.
pub const LOG_MOST: usize = 65536;

// What stands directly in the log, the trace or an event: an element at its `<`, the end tag, something that is passed, or a fault.
#[derive(Clone, Copy)]
pub enum Inside {
    Element(usize),
    Close(usize),
    On(usize),
    Fault(usize),
}

// What a reader is in.
#[derive(Clone, Copy)]
pub enum Level {
    Log,
    Trace,
    Event,
}

// Where a reader is: the place reached; those of the open tags; the place behind the trace's start tag; the whole events and their end; the event's line.
#[derive(Clone, Copy)]
pub struct Cursor {
    pub level: Level,
    pub at: usize,
    pub log: usize,
    pub trace: usize,
    pub opened: usize,
    pub event: usize,
    pub events: usize,
    pub kept: usize,
    pub from: usize,
    pub to: usize,
}

// One step of a reader: on, behind the log, or the place of the fault.
#[derive(Clone, Copy)]
pub enum Move {
    On(Cursor),
    Done(Cursor),
    Fault(usize),
}

// The end of the text, or the place of the fault; and where the reader was then.
#[derive(Clone, Copy)]
pub struct Scanned {
    pub end: Result<usize, Fault>,
    pub last: Cursor,
}

fn left_by(level: Level, text: &[u8], c: Cursor, q: usize) -> Move
    ensures { result ≡ left_by level text.now c q }
{
    match level {
        Level::Log => Move::Done(reached(c, q)),
        Level::Trace => Move::On(behind_trace(c, q)),
        Level::Event => Move::On(behind_event(text, c, q)),
    }
}

fn by_inside(i: Inside, text: &[u8], c: Cursor) -> Move
    ensures { result ≡ by_inside i text.now c }
{
    let level = c.level;
    match i {
        Inside::Element(p) => entered_by(level, text, c, p),
        Inside::Close(q) => left_by(level, text, c, q),
        Inside::On(q) => Move::On(reached(c, q)),
        Inside::Fault(q) => Move::Fault(q),
    }
}

// One step from where the reader is.
pub fn advance(text: &[u8], c: Cursor) -> Move
    ensures { result ≡ advance text.now c }
{
    let level = c.level;
    let lacking = lacks_by(level, c);
    let outer = tag_by(level, c);
    let p = run(Class::Blanks, text, c.at);
    by_inside(inside_at(lacking, text, outer, p), text, c)
}

fn scan_from(text: &[u8], c: Cursor) -> Scanned
    ensures { result ≡ scan_from text.now c }
{
    let mut d = c;
    // Stays a while: each step goes as far as its markup.
    while d.at < text.len() {
        let m = advance(text, d);
        match m {
            Move::On(e) => {
                d = e;
            }
            Move::Done(e) => {
                return Scanned {
                    end: last_from(text, e.at),
                    last: e,
                };
            }
            Move::Fault(q) => {
                return Scanned {
                    end: Err(Fault { place: q }),
                    last: d,
                };
            }
        }
    }
    Scanned {
        end: Err(Fault { place: text.len() }),
        last: d,
    }
}

fn begin_by(tag: Tag, p: usize) -> Move
    ensures { result ≡ begin_by tag p }
{
    match tag {
        Tag::Open(q) => Move::On(in_log(p, q)),
        Tag::Empty(q) => Move::Fault(back(q, 2)),
        Tag::Fault(q) => Move::Fault(q),
    }
}

fn begin(s: Result<usize, Fault>, text: &[u8]) -> Move
    ensures { result ≡ begin s text.now }
{
    match s {
        Ok(p) => begin_by(tag_of(markup(text, p), p), p),
        Err(f) => Move::Fault(f.place),
    }
}

// Behind the root's tag.
pub fn start(text: &[u8]) -> Move
    ensures { result ≡ start text.now }
{
    if LOG_MOST < text.len() {
        return Move::Fault(0);
    }
    begin(root_at(text, b"log"), text)
}

// The whole text: its end, or the first fault; and where the reader was then.
pub fn scan(text: &[u8]) -> Scanned
    ensures { result ≡ scan text.now }
{
    let m = start(text);
    match m {
        Move::On(c) => scan_from(text, c),
        Move::Done(c) => Scanned {
            end: Ok(c.at),
            last: c,
        },
        Move::Fault(q) => Scanned {
            end: Err(Fault { place: q }),
            last: nowhere(),
        },
    }
}
