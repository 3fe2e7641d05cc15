// Tokens that are judged when they are whole.
#![tactic(auto, using(base_words::proofs::PickLaws::picks, std::proofs::lemmas::Bool::Decides::nat_tests), unfolding(crate::specs::Tokens::end_of, crate::specs::Tokens::whole_in_tag, crate::specs::Tokens::whole_in_instruction, crate::specs::Tokens::whole, crate::specs::Tokens::move_to, crate::specs::Tokens::moved, crate::specs::Tokens::if_attribute, crate::specs::Tokens::is_named, crate::specs::Tokens::is_found, crate::specs::Tokens::twice, crate::specs::Tokens::first, crate::specs::Tokens::lower, crate::specs::Tokens::says_xml, crate::specs::Tokens::is_declaration, crate::specs::Tokens::reserved))]

ghost use Rattle.std.specs.Prelude.{◌≡◌, length};
ghost use Rattle.base_words.specs.Words.{part};
ghost use Rattle.xml_characters.specs.References.{character_of, is_character};
ghost use Rattle.xml_markup.specs.Tokens.{end_of, whole_in_tag, whole_in_instruction, whole, move_to, moved, is_named, begun, found, is_found, twice, first, lower, says_xml, is_declaration, reserved};

use super::leaping::{leap, leap_begin};
use super::{Cursor, Scan, Whole};
use base_bytes::{byte, piece, same};
use xml_characters::is_name;
use xml_characters::references::{character_of, is_character};
use xml_scanner::states::step;
use xml_scanner::{InInstruction, InTag, Move, State};

fn end_of(w: Whole, ended: bool) -> Whole
    ensures { result ≡ end_of w ended }
{
    if ended { w } else { Whole::Nothing }
}

fn whole_in_tag(s: InTag, b: u8) -> Whole
    ensures { result ≡ whole_in_tag s b }
{
    match s {
        InTag::Name => Whole::Nothing,
        InTag::Blank => Whole::Nothing,
        InTag::Attribute => end_of(Whole::Attribute, !is_name(b)),
        InTag::Named => Whole::Nothing,
        InTag::Equals => Whole::Nothing,
        InTag::Value(q) => Whole::Nothing,
        InTag::Reference(q) => end_of(Whole::Reference, b == b';'),
        InTag::Behind => Whole::Nothing,
        InTag::Slash => Whole::Nothing,
    }
}

fn whole_in_instruction(s: InInstruction, b: u8) -> Whole
    ensures { result ≡ whole_in_instruction s b }
{
    match s {
        InInstruction::Opened => Whole::Nothing,
        InInstruction::Target => end_of(Whole::Target, !is_name(b)),
        InInstruction::TargetMark => Whole::Nothing,
        InInstruction::Inside => Whole::Nothing,
        InInstruction::Mark => Whole::Nothing,
    }
}

pub fn whole(s: State, b: u8) -> Whole
    ensures { result ≡ whole s b }
{
    match s {
        State::Begin => Whole::Nothing,
        State::Opening(o) => Whole::Nothing,
        State::Comment(c) => Whole::Nothing,
        State::Data(d) => Whole::Nothing,
        State::Instruction(i) => whole_in_instruction(i, b),
        State::Tag(t) => whole_in_tag(t, b),
        State::EndTag(e) => Whole::Nothing,
        State::Reference => end_of(Whole::Reference, b == b';'),
    }
}

fn move_to(m: Move, mark: usize, i: usize, q: usize) -> Scan
    ensures { result ≡ move_to m mark i q }
{
    match m {
        Move::On(s) => Scan::On(Cursor { state: s, mark }),
        Move::Next(s) => Scan::On(Cursor { state: s, mark: i }),
        Move::Close(sort) => Scan::Past(sort, q),
        Move::Here => Scan::Fault(i),
        Move::Back => Scan::Fault(mark),
    }
}

pub fn moved(c: Cursor, b: u8, i: usize, q: usize) -> Scan
    ensures { result ≡ moved c b i q }
{
    let s = c.state;
    move_to(step(s, b), c.mark, i, q)
}

fn is_named(text: &[u8], name: &[u8], c: Cursor, i: usize) -> bool
    ensures { result ≡ is_named text.now name.now c i }
{
    let s = c.state;
    let w = whole(s, byte(text, i));
    let Whole::Attribute = w else {
        return false;
    };
    same(piece(text, c.mark, i), name)
}

pub fn begun(p: usize) -> Cursor
    ensures { result ≡ begun p }
{
    Cursor {
        state: State::Begin,
        mark: p,
    }
}

// The place behind the first attribute's name that is this one, in the tag at `start`.
pub fn found(text: &[u8], name: &[u8], start: usize) -> Option<usize>
    ensures { result ≡ found text.now name.now start }
{
    let b = leap_begin(text, start);
    let mut c = b.cursor;
    let mut i = b.place;
    // Stays a while: a byte is passed with those behind it that show nothing.
    while i < text.len() {
        if is_named(text, name, c, i) {
            return Some(i);
        }
        let a = moved(c, byte(text, i), i, i + 1);
        let Scan::On(next) = a else {
            return None;
        };
        let l = leap(next, text, i + 1);
        let d = l.cursor;
        c = d;
        i = l.place;
    }
    None
}

// Whether the name from `mark` on is that of an attribute before it in the tag at `start`.
pub fn twice(text: &[u8], start: usize, mark: usize) -> bool
    ensures { result ≡ twice text.now start mark }
{
    let tag = piece(text, 0, mark);
    let name = piece(text, mark, text.len());
    found(tag, name, start).is_some()
}

// Where the document begins.
pub fn first(text: &[u8]) -> usize
    ensures { result ≡ first text.now }
{
    let begun = piece(text, 0, 3);
    let mark = piece(b"\xEF\xBB\xBF", 0, text.len());
    if same(begun, mark) {
        return begun.len();
    }
    0
}

fn lower(b: u8) -> u8
    ensures { result ≡ lower b }
{
    if b < b'a' { b + 32 } else { b }
}

fn says_xml(w: &[u8]) -> bool
    ensures { result ≡ says_xml w.now }
{
    w.len() == 5
        && lower(byte(w, 2)) == b'x'
        && lower(byte(w, 3)) == b'm'
        && lower(byte(w, 4)) == b'l'
}

fn is_declaration(w: &[u8]) -> bool
    ensures { result ≡ is_declaration w.now }
{
    same(w, b"<?xml")
}

pub fn reserved(text: &[u8], start: usize, mark: usize) -> bool
    ensures { result ≡ reserved text.now start mark }
{
    let w = piece(text, mark, text.len());
    says_xml(w) && (!is_declaration(w) || start != first(text))
}

pub fn speaks(text: &[u8], mark: usize) -> bool
    ensures { result ≡ is_character (character_of (part text.now mark (length text.now))) }
{
    is_character(character_of(piece(text, mark, text.len())))
}
