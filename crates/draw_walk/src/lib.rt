// One walk through a drawing, from left to right: the first fault of its text, and what is drawn up to there.
#![tactic(auto)]

ghost use Rattle.std.specs.Prelude.{◌≡◌};
ghost use Rattle.draw_walk.specs.Walk.{walk_told, tag_from, noted, counted, entered, content_at, thing_at, walk};

use draw_things::names::{drawn_as, named_at};
use draw_things::things::{DEFINITIONS, NOTHING, Note, add_thing, one_more};
use xml_document::around::{last_from, root_at};
use xml_markup::scanning::markup;
use xml_skip::{Fault, Part, Tag, part_at, skip, tag_of};

pub mod passing;

use passing::{is_passed, pass};

// The place reached, or that of the fault, and how many things were met.
#[derive(Clone, Copy)]
pub struct Walked {
    pub end: Result<usize, Fault>,
    pub count: Note,
}

// The thing whose content is walked: its sort, its ordinal and the place of its tag.
#[derive(Clone, Copy)]
pub struct Outer {
    pub sort: Note,
    pub thing: Note,
    pub tag: usize,
}

fn tag_from(s: Result<usize, Fault>) -> Tag
    ensures { result ≡ tag_from s }
{
    match s {
        Ok(q) => Tag::Empty(q),
        Err(f) => Tag::Fault(f.place),
    }
}

// Where the content of an element of a sort begins, or the place behind the element.
fn enter(s: Note, text: &[u8], p: usize) -> Tag
    ensures { result ≡ entered s text.now p }
{
    if s == NOTHING {
        return tag_from(skip(text, p));
    }
    if is_passed(s) {
        return tag_from(pass(s, text, p));
    }
    tag_of(markup(text, p), p)
}

fn note(s: Note, p: usize, k: Note, w: &mut [Note], n: Note)
    ensures { w.new ≡ noted s p k w.old n }
{
    if s != NOTHING {
        add_thing(s, p, k, w, n);
    }
}

fn counted(s: Note, n: Note) -> Note
    ensures { result ≡ counted s n }
{
    if s == NOTHING { n } else { one_more(n) }
}

// An element at a place, walked as a sort and drawing d, within thing k, after n things.
#[cycle(walking)]
pub fn walk_thing(
    s: Note,
    d: Note,
    text: &[u8],
    k: Note,
    p: usize,
    w: &mut [Note],
    n: Note,
) -> Walked
    ensures { walk_told result w.new ≡ thing_at s d text.now k p w.old n }
{
    note(d, p, k, w, n);
    let count = counted(d, n);
    let t = enter(s, text, p);
    match t {
        Tag::Open(q) => {
            let o = Outer {
                sort: s,
                thing: n,
                tag: p,
            };
            walk_content(text, o, q, w, count)
        }
        Tag::Empty(q) => Walked { end: Ok(q), count },
        Tag::Fault(q) => Walked {
            end: Err(Fault { place: q }),
            count,
        },
    }
}

// The content of a thing from a place on, after n things.
#[cycle(walking)]
pub fn walk_content(text: &[u8], o: Outer, p: usize, w: &mut [Note], n: Note) -> Walked
    ensures { walk_told result w.new ≡ content_at text.now o p w.old n }
{
    let mut at = p;
    let mut count = n;
    // Stays a while: each part tells where the next one begins.
    while at < text.len() {
        let part = part_at(text, o.tag, at);
        match part {
            Part::Element => {
                let s = named_at(o.sort, text, at);
                let d = drawn_as(s, o.sort, text, at);
                let e = walk_thing(s, d, text, o.thing, at, w, count);
                let end = e.end;
                let Ok(q) = end else {
                    return e;
                };
                count = e.count;
                at = q;
            }
            Part::Close(q) => {
                return Walked { end: Ok(q), count };
            }
            Part::On(q) => {
                at = q;
            }
            Part::Fault(q) => {
                return Walked {
                    end: Err(Fault { place: q }),
                    count,
                };
            }
        }
    }
    Walked {
        end: Err(Fault { place: text.len() }),
        count,
    }
}

// The things of a drawing into the words lent, and how many there are; or the first fault of its text.
pub fn walk(text: &[u8], w: &mut [Note]) -> Walked
    ensures { walk_told result w.new ≡ walk text.now w.old }
{
    let root = root_at(text, b"definitions");
    let Ok(p) = root else {
        return Walked {
            end: root,
            count: 0,
        };
    };
    let e = walk_thing(DEFINITIONS, DEFINITIONS, text, 0, p, w, 0);
    let end = e.end;
    let Ok(q) = end else {
        return e;
    };
    Walked {
        end: last_from(text, q),
        count: e.count,
    }
}
