// A markup read byte by byte.
#![tactic(auto, using(base_words::proofs::PickLaws::picks, std::proofs::lemmas::Bool::Decides::nat_tests), unfolding(crate::specs::Markup::advance, crate::specs::Markup::begins_at, crate::specs::Markup::closes_data, crate::specs::Markup::opens_markup, crate::specs::Markup::placed, crate::specs::Markup::markup))]

ghost use Rattle.std.specs.Prelude.{◌≡◌, drop, false};
ghost use Rattle.base_words.specs.Words.{at, part};
ghost use Rattle.xml_markup.specs.Tokens.{whole, if_attribute, twice};
ghost use Rattle.xml_markup.specs.Markup.{advance, scan, begins_at, closes_data, opens_markup, text_from, marked, placed, markup};

use super::ahead::{FEW, read_new, tried};
use super::leaping::{leap, leap_begin};
use super::tokens::{twice, whole};
use super::{Cursor, Markup, Scan, Whole};
use base_bytes::{byte, piece, same};
use xml_characters::is_control;
use xml_scanner::Sort;

// Whether the byte at a place shows an attribute's name to be whole that stands in the tag before.
fn is_second(text: &[u8], start: usize, c: Cursor, i: usize) -> bool
    ensures { result ≡ if_attribute (whole c.state (at text.now i)) (twice (part text.now 0 i) start c.mark) false }
{
    let s = c.state;
    let w = whole(s, byte(text, i));
    let Whole::Attribute = w else {
        return false;
    };
    twice(piece(text, 0, i), start, c.mark)
}

fn advance(text: &[u8], start: usize, c: Cursor, i: usize) -> Scan
    ensures { result ≡ advance text.now start c i }
{
    if text.len() <= i {
        return Scan::Fault(i);
    }
    if is_second(text, start, c, i) {
        return Scan::Fault(c.mark);
    }
    tried(text, start, c, i)
}

// The markup that `<` or `&` opens at a place.
fn scan(text: &[u8], p: usize) -> Scan
    ensures { result ≡ scan text.now p }
{
    let b = leap_begin(text, p);
    let g = b.cursor;
    let f = read_new(text, p, g, b.place, FEW);
    let mut c = f.cursor;
    let mut i = f.place;
    let mut most = f.most;
    // Stays a while: a byte is passed with those behind it that show nothing.
    while i < text.len() {
        let a = advance(text, p, c, i);
        let Scan::On(next) = a else {
            return a;
        };
        let l = leap(next, text, i + 1);
        let e = l.cursor;
        let r = read_new(text, p, e, l.place, most);
        let d = r.cursor;
        c = d;
        i = r.place;
        most = r.most;
    }
    Scan::Fault(i)
}

// Whether the bytes from a place on begin with these.
pub fn begins_at(text: &[u8], i: usize, word: &[u8]) -> bool
    ensures { result ≡ begins_at text.now i word.now }
{
    let rest = piece(text, i, text.len());
    same(piece(rest, 0, word.len()), word)
}

fn closes_data(text: &[u8], i: usize) -> bool
    ensures { result ≡ closes_data text.now i }
{
    byte(text, i) == b']' && begins_at(text, i, b"]]>")
}

fn opens_markup(b: u8) -> bool
    ensures { result ≡ opens_markup b }
{
    b == b'<' || b == b'&'
}

// Character data from a place on.
fn text_from(text: &[u8], p: usize) -> Scan
    ensures { result ≡ text_from text.now (drop p text.now) p }
{
    for i in p..text.len() {
        let b = text[i];
        if opens_markup(b) {
            return Scan::Past(Sort::Text, i);
        }
        if is_control(b) {
            return Scan::Fault(i);
        }
        if closes_data(text, i) {
            return Scan::Fault(i);
        }
    }
    Scan::Past(Sort::Text, p.max(text.len()))
}

fn marked(sort: Sort, q: usize) -> Markup
    ensures { result ≡ marked sort q }
{
    Markup { sort, next: q }
}

fn placed(s: Scan) -> Markup
    ensures { result ≡ placed s }
{
    match s {
        Scan::On(c) => marked(Sort::Fault, c.mark),
        Scan::Past(sort, q) => marked(sort, q),
        Scan::Fault(q) => marked(Sort::Fault, q),
    }
}

// What stands at a place of a text.
pub fn markup(text: &[u8], p: usize) -> Markup
    ensures { result ≡ markup text.now p }
{
    if text.len() <= p {
        return marked(Sort::End, text.len());
    }
    if opens_markup(text[p]) {
        return placed(scan(text, p));
    }
    placed(text_from(text, p))
}
