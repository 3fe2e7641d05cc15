// XML as a drawing or a log has it: what markup stands at a place of a text.
#![tactic(auto)]

use xml_scanner::{Sort, State};

pub mod ahead;
pub mod leaping;
pub mod scanning;
pub mod shelf;
pub mod spans;
pub mod staying;
pub mod tokens;

// What token a byte shows to be whole, of those that are judged then.
#[derive(Clone, Copy)]
pub enum Whole {
    Nothing,
    Attribute,
    Target,
    Reference,
}

// How far a markup is read: where the next byte stands, and the place of its token's first byte.
#[derive(Clone, Copy)]
pub struct Cursor {
    pub state: State,
    pub mark: usize,
}

// Where a markup's next byte stands, and its place.
#[derive(Clone, Copy)]
pub struct Stand {
    pub cursor: Cursor,
    pub place: usize,
}

// A markup read so far; or its sort and the place behind it; or the place of the fault.
// The fault stays a variant: it is a markup of a sort like the others, so `?` would pass nothing on.
#[derive(Clone, Copy)]
pub enum Scan {
    On(Cursor),
    Past(Sort, usize),
    Fault(usize),
}

// What stands at a place, and the place behind it; the place of the fault, where it is one.
#[derive(Clone, Copy)]
pub struct Markup {
    pub sort: Sort,
    pub next: usize,
}

// From one place to another.
#[derive(Clone, Copy)]
pub struct Span {
    pub from: usize,
    pub to: usize,
}

// A whole token `<`name or `</`name, or something else.
#[derive(Clone, Copy)]
pub enum Opener {
    Start,
    End,
    Other,
}

// Bytes that are passed together: blanks, a name's, all but this quote.
#[derive(Clone, Copy)]
pub enum Class {
    Blanks,
    Name,
    Value(u8),
}

// How far a tag is read ahead, and how many names are kept or may be.
#[derive(Clone, Copy)]
pub struct Reach {
    pub cursor: Cursor,
    pub place: usize,
    pub most: usize,
}

// Between these places a name is looked for.
#[derive(Clone, Copy)]
pub struct Bounds {
    pub low: usize,
    pub high: usize,
}
