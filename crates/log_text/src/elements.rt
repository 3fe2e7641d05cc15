// An element directly in the log, the trace or an event: it is read into, or skipped whole, or a fault.
#![tactic(auto, using(base_words::proofs::PickLaws::picks, std::proofs::lemmas::Bool::Decides::nat_tests), unfolding(crate::specs::Logs::over, crate::specs::Logs::over_named, crate::specs::Logs::line_by, crate::specs::Logs::name_by, crate::specs::Logs::string_by, crate::specs::Logs::string_at, crate::specs::Logs::trace_by, crate::specs::Logs::event_by, crate::specs::Logs::is_of_log, crate::specs::Logs::other_at, crate::specs::Logs::entered_by))]

ghost use Rattle.std.specs.Prelude.{◌≡◌};
ghost use Rattle.base_words.specs.Text.{bytes};
ghost use Rattle.base_words.specs.Words.{part};
ghost use Rattle.base_bytes.specs.Bytes.{same_bytes};
ghost use Rattle.log_lines.specs.Entries.{entry_of};
ghost use Rattle.log_text.specs.declared.Level.TheVariants.{Log, Trace, Event};
ghost use Rattle.xml_markup.specs.Markup.{markup};
ghost use Rattle.xml_skip.specs.Skipping.{tag_of};
ghost use Rattle.log_text.specs.Logs.{over, over_named, line_by, name_by, string_by, string_at, trace_by, event_by, is_of_log, other_at, entered_by};

use super::cursors::{back, in_event, named, reached, traced};
use super::{Cursor, Level, Move};
use base_bytes::{piece, same};
use log_lines::entry_of;
use xml_markup::scanning::markup;
use xml_markup::spans::{attribute, is_called};
use xml_skip::{Fault, Tag, skip, skip_from, tag_of};

fn over(s: Result<usize, Fault>, c: Cursor) -> Move
    ensures { result ≡ over s c }
{
    match s {
        Ok(q) => Move::On(reached(c, q)),
        Err(f) => Move::Fault(f.place),
    }
}

fn over_named(s: Result<usize, Fault>, c: Cursor, from: usize, to: usize) -> Move
    ensures { result ≡ over_named s c from to }
{
    match s {
        Ok(q) => Move::On(named(c, from, to, q)),
        Err(f) => Move::Fault(f.place),
    }
}

fn is_line(text: &[u8], from: usize, to: usize) -> bool
    ensures { result ≡ (entry_of (part text.now from to)).right }
{
    entry_of(piece(text, from, to)).right
}

fn line_by(
    a: Option<(usize, usize)>,
    tag: Tag,
    text: &[u8],
    c: Cursor,
    p: usize,
    end: usize,
) -> Move
    requires { tag ≡ tag_of (markup text.now p) p }
    ensures { result ≡ line_by a text.now c p end }
{
    match a {
        Some((from, to)) if is_line(text, from, to) => {
            over_named(skip_from(tag, text, p), c, from, to)
        }
        Some((from, _)) => Move::Fault(back(from, 1)),
        None => Move::Fault(end),
    }
}

fn is_key(text: &[u8], from: usize, to: usize) -> bool
    ensures { result ≡ same_bytes (part text.now from to) (bytes "concept:name") }
{
    same(piece(text, from, to), b"concept:name")
}

fn name_by(
    a: Option<(usize, usize)>,
    tag: Tag,
    text: &[u8],
    c: Cursor,
    p: usize,
    end: usize,
) -> Move
    requires { tag ≡ tag_of (markup text.now p) p }
    ensures { result ≡ name_by a text.now c p end }
{
    let Some((from, to)) = a else {
        return over(skip_from(tag, text, p), c);
    };
    if is_key(text, from, to) {
        if c.to == 0 {
            return line_by(attribute(text, p, b"value"), tag, text, c, p, end);
        }
        return Move::Fault(back(from, 1));
    }
    over(skip_from(tag, text, p), c)
}

fn string_by(tag: Tag, text: &[u8], c: Cursor, p: usize) -> Move
    requires { tag ≡ tag_of (markup text.now p) p }
    ensures { result ≡ string_by tag text.now c p }
{
    let key = attribute(text, p, b"key");
    match tag {
        Tag::Open(q) => name_by(key, tag, text, c, p, back(q, 1)),
        Tag::Empty(q) => name_by(key, tag, text, c, p, back(q, 2)),
        Tag::Fault(q) => Move::Fault(q),
    }
}

fn string_at(text: &[u8], c: Cursor, p: usize) -> Move
    ensures { result ≡ string_at text.now c p }
{
    string_by(tag_of(markup(text, p), p), text, c, p)
}

fn trace_by(tag: Tag, c: Cursor, p: usize) -> Move
    ensures { result ≡ trace_by tag c p }
{
    match tag {
        Tag::Open(q) => Move::On(traced(Level::Trace, c, p, q)),
        Tag::Empty(q) => Move::On(traced(Level::Log, c, p, q)),
        Tag::Fault(q) => Move::Fault(q),
    }
}

fn event_by(tag: Tag, c: Cursor, p: usize) -> Move
    ensures { result ≡ event_by tag c p }
{
    match tag {
        Tag::Open(q) => Move::On(in_event(c, p, q)),
        Tag::Empty(q) => Move::Fault(back(q, 2)),
        Tag::Fault(q) => Move::Fault(q),
    }
}

fn is_of_log(text: &[u8], p: usize) -> bool
    ensures { result ≡ is_of_log text.now p }
{
    is_called(text, p, b"log") || is_called(text, p, b"trace") || is_called(text, p, b"event")
}

fn other_at(text: &[u8], c: Cursor, p: usize) -> Move
    ensures { result ≡ other_at text.now c p }
{
    if is_of_log(text, p) {
        return Move::Fault(p);
    }
    over(skip(text, p), c)
}

fn enter_in_log(text: &[u8], c: Cursor, p: usize) -> Move
    ensures { result ≡ entered_by Log text.now c p }
{
    if is_called(text, p, b"trace") {
        if c.opened == 0 {
            return trace_by(tag_of(markup(text, p), p), c, p);
        }
        return Move::Fault(p);
    }
    other_at(text, c, p)
}

fn enter_in_trace(text: &[u8], c: Cursor, p: usize) -> Move
    ensures { result ≡ entered_by Trace text.now c p }
{
    if is_called(text, p, b"event") {
        return event_by(tag_of(markup(text, p), p), c, p);
    }
    other_at(text, c, p)
}

fn enter_in_event(text: &[u8], c: Cursor, p: usize) -> Move
    ensures { result ≡ entered_by Event text.now c p }
{
    if is_called(text, p, b"string") {
        return string_at(text, c, p);
    }
    other_at(text, c, p)
}

// An element at a place.
pub fn entered_by(level: Level, text: &[u8], c: Cursor, p: usize) -> Move
    ensures { result ≡ entered_by level text.now c p }
{
    match level {
        Level::Log => enter_in_log(text, c, p),
        Level::Trace => enter_in_trace(text, c, p),
        Level::Event => enter_in_event(text, c, p),
    }
}
