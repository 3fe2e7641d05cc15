// Where names and values stand, and names compared.
#![tactic(auto, using(base_words::proofs::PickLaws::picks, std::proofs::lemmas::Bool::Decides::nat_tests), unfolding(crate::specs::Spans::is_of, crate::specs::Spans::after, crate::specs::Spans::has_second, crate::specs::Spans::name_from, crate::specs::Spans::name_at, crate::specs::Spans::bytes_of, crate::specs::Spans::second, crate::specs::Spans::opens_name, crate::specs::Spans::opener, crate::specs::Spans::behind_colon, crate::specs::Spans::local_of, crate::specs::Spans::is_called, crate::specs::Spans::same_name, crate::specs::Spans::quote_at, crate::specs::Spans::value_at, crate::specs::Spans::value_of, crate::specs::Spans::attribute))]

ghost use Rattle.std.specs.Prelude.{◌≡◌};
ghost use Rattle.xml_markup.specs.Spans.{is_of, run, after, has_second, name_from, name_at, bytes_of, second, opens_name, opener, behind_colon, local_from, local_of, is_called, same_name, quote_at, value_at, value_of, attribute};

use super::tokens::found;
use super::{Class, Opener, Span};
use base_bytes::{byte, piece, same};
use xml_characters::{begins_name, is_blank, is_name};

fn is_of(class: Class, b: u8) -> bool
    ensures { result ≡ is_of class b }
{
    match class {
        Class::Blanks => is_blank(b),
        Class::Name => is_name(b),
        Class::Value(q) => b != q,
    }
}

// The place behind the bytes of a class.
pub fn run(class: Class, text: &[u8], from: usize) -> usize
    ensures { result ≡ run class text.now from }
{
    for i in from..text.len() {
        if !is_of(class, text[i]) {
            return i;
        }
    }
    from.max(text.len())
}

// One place on; the end stays.
pub fn after(text: &[u8], i: usize) -> usize
    ensures { result ≡ after text.now i }
{
    if i < text.len() { i + 1 } else { text.len() }
}

fn has_second(b: u8) -> bool
    ensures { result ≡ has_second b }
{
    b == b'/' || b == b'?'
}

fn name_from(text: &[u8], p: usize) -> usize
    ensures { result ≡ name_from text.now p }
{
    let q = after(text, p);
    if has_second(byte(text, q)) {
        return after(text, q);
    }
    q
}

// The name of the tag or instruction at a place.
pub fn name_at(text: &[u8], p: usize) -> Span
    ensures { result ≡ name_at text.now p }
{
    let from = name_from(text, p);
    let to = run(Class::Name, text, from);
    Span { from, to }
}

// The bytes of a span.
pub fn bytes_of(text: &[u8], s: Span) -> &[u8]
    ensures { result.now ≡ bytes_of text.now s }
{
    piece(text, s.from, s.to)
}

fn second(text: &[u8], p: usize) -> u8
    ensures { result ≡ second text.now p }
{
    byte(text, after(text, p))
}

fn opens_name(text: &[u8], p: usize) -> bool
    ensures { result ≡ opens_name text.now p }
{
    if byte(text, p) != b'<' {
        return false;
    }
    let n = name_at(text, p);
    n.to < text.len() && begins_name(byte(text, n.from))
}

// Whether a whole token `<`name or `</`name stands at a place.
pub fn opener(text: &[u8], p: usize) -> Opener
    ensures { result ≡ opener text.now p }
{
    if !opens_name(text, p) {
        return Opener::Other;
    }
    match second(text, p) {
        b'/' => Opener::End,
        b'?' => Opener::Other,
        _ => Opener::Start,
    }
}

fn behind_colon(b: u8, q: usize, r: usize) -> usize
    ensures { result ≡ behind_colon b q r }
{
    if b == b':' { q } else { r }
}

// The place behind the last colon of a name.
fn local_from(name: &[u8]) -> usize
    ensures { result ≡ local_from name.now 0 0 }
{
    let mut from = 0;
    for (i, b) in name.iter().enumerate() {
        from = behind_colon(*b, i + 1, from);
    }
    from
}

// What stands behind the last colon of a name.
pub fn local_of(name: &[u8]) -> &[u8]
    ensures { result.now ≡ local_of name.now }
{
    piece(name, local_from(name), name.len())
}

// Whether the element at a place is called so, whatever its prefix.
pub fn is_called(text: &[u8], p: usize, name: &[u8]) -> bool
    ensures { result ≡ is_called text.now p name.now }
{
    same(local_of(bytes_of(text, name_at(text, p))), name)
}

// Whether the tags at two places have the same name, byte for byte.
pub fn same_name(text: &[u8], p: usize, q: usize) -> bool
    ensures { result ≡ same_name text.now p q }
{
    same(
        bytes_of(text, name_at(text, p)),
        bytes_of(text, name_at(text, q)),
    )
}

// The quote that opens the value of the attribute whose name ends at a place.
pub fn quote_at(text: &[u8], i: usize) -> usize
    ensures { result ≡ quote_at text.now i }
{
    run(
        Class::Blanks,
        text,
        after(text, run(Class::Blanks, text, i)),
    )
}

// Where the value behind a quote begins and ends.
pub fn value_at(text: &[u8], q: usize) -> Option<(usize, usize)>
    ensures { result ≡ value_at text.now q }
{
    let from = after(text, q);
    Some((from, run(Class::Value(byte(text, q)), text, from)))
}

// Where an attribute's value begins and ends in the tag at a place, its name compared whole.
pub fn attribute(text: &[u8], p: usize, name: &[u8]) -> Option<(usize, usize)>
    ensures { result ≡ attribute text.now p name.now }
{
    let i = found(text, name, p)?;
    value_at(text, quote_at(text, i))
}
