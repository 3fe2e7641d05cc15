// Where a reader of a log is, and where it is next.
#![tactic(auto, using(base_words::proofs::PickLaws::picks, std::proofs::lemmas::Bool::Decides::nat_tests), unfolding(crate::specs::Cursors::tag_by, crate::specs::Cursors::lacks_by))]

ghost use Rattle.std.specs.Prelude.{◌≡◌, ◌-◌};
ghost use Rattle.log_text.specs.Cursors.{nowhere, in_log, reached, traced, in_event, named, behind_event, behind_trace, tag_by, lacks_by};

use super::{Cursor, Level};
use xml_markup::spans::after;

// So many places back; the beginning stays.
pub fn back(q: usize, n: usize) -> usize
    ensures { result ≡ q - n }
{
    q.saturating_sub(n)
}

// Before the root.
pub fn nowhere() -> Cursor
    ensures { result ≡ nowhere }
{
    in_log(0, 0)
}

// In the log whose tag is at p, with q behind it.
pub fn in_log(p: usize, q: usize) -> Cursor
    ensures { result ≡ in_log p q }
{
    Cursor {
        level: Level::Log,
        at: q,
        log: p,
        trace: 0,
        opened: 0,
        event: 0,
        events: 0,
        kept: 0,
        from: 0,
        to: 0,
    }
}

// The same, at q.
pub fn reached(c: Cursor, q: usize) -> Cursor
    ensures { result ≡ reached c q }
{
    Cursor { at: q, ..c }
}

// Behind the trace's tag at p: in the trace, or, where the tag is empty, in the log.
pub fn traced(level: Level, c: Cursor, p: usize, q: usize) -> Cursor
    ensures { result ≡ traced level c p q }
{
    Cursor {
        level,
        at: q,
        trace: p,
        opened: q,
        kept: q,
        ..c
    }
}

// In the event whose tag is at p.
pub fn in_event(c: Cursor, p: usize, q: usize) -> Cursor
    ensures { result ≡ in_event c p q }
{
    Cursor {
        level: Level::Event,
        at: q,
        event: p,
        from: 0,
        to: 0,
        ..c
    }
}

// Behind the element that has the event's line.
pub fn named(c: Cursor, from: usize, to: usize, q: usize) -> Cursor
    ensures { result ≡ named c from to q }
{
    Cursor {
        at: q,
        from,
        to,
        ..c
    }
}

// Behind the event.
pub fn behind_event(text: &[u8], c: Cursor, q: usize) -> Cursor
    ensures { result ≡ behind_event text.now c q }
{
    Cursor {
        level: Level::Trace,
        at: q,
        events: after(text, c.events),
        kept: q,
        ..c
    }
}

// Behind the trace.
pub fn behind_trace(c: Cursor, q: usize) -> Cursor
    ensures { result ≡ behind_trace c q }
{
    Cursor {
        level: Level::Log,
        at: q,
        ..c
    }
}

// The tag of what the reader is in.
pub fn tag_by(level: Level, c: Cursor) -> usize
    ensures { result ≡ tag_by level c }
{
    match level {
        Level::Log => c.log,
        Level::Trace => c.trace,
        Level::Event => c.event,
    }
}

// Whether what the reader is in has not what it needs.
pub fn lacks_by(level: Level, c: Cursor) -> bool
    ensures { result ≡ lacks_by level c }
{
    match level {
        Level::Log => c.opened == 0,
        Level::Trace => false,
        Level::Event => c.to == 0,
    }
}
