// Bytes that show no token to be whole, passed together: the beginning of a tag up to its first attribute; a value in quotes, the blank behind it and the next name.
ghost use Rattle.std.specs.Prelude.{◌≡◌};
ghost use Rattle.xml_scanner.specs.declared.InOpening.TheVariants.{Less};
ghost use Rattle.xml_scanner.specs.declared.InTag.TheVariants.{Blank, Equals, Value};
ghost use Rattle.xml_scanner.specs.declared.Move.TheVariants.{On};
ghost use Rattle.xml_scanner.specs.declared.State.TheVariants.{Opening, Tag};
ghost use Rattle.xml_scanner.specs.Tags.{in_tag};
ghost use Rattle.xml_markup.specs.declared.Whole.TheVariants.{Nothing};
ghost use Rattle.xml_markup.specs.Tokens.{whole_in_tag, begun};
ghost use Rattle.xml_markup.specs.Leaps.{Leads};

use super::spans::run;
use super::staying::{plain_from, stay};
use super::{Class, Cursor, Stand};
use xml_characters::begins_name;
use xml_scanner::{InOpening, InTag, State};

fn stand(state: State, mark: usize, place: usize) -> Stand
    ensures { result ≡ record { cursor = record { state = state; mark = mark }; place = place } }
{
    let cursor = Cursor { state, mark };
    Stand { cursor, place }
}

// Behind a blank of a tag: the name that begins there.
fn leap_name(mark: usize, text: &[u8], i: usize) -> Stand
    ensures { Leads text.now (record { state = Tag Blank; mark = mark }) i result.cursor result.place }
{
    if text.len() <= i {
        return stand(State::Tag(InTag::Blank), mark, i);
    }
    if !begins_name(text[i]) {
        return stand(State::Tag(InTag::Blank), mark, i);
    }
    let k = run(Class::Name, text, i + 1);
    stand(State::Tag(InTag::Attribute), i, k)
}

// Where a blank may stand: it, and the name behind it.
fn leap_blank(s: InTag, mark: usize, text: &[u8], i: usize) -> Stand
    requires { (in_tag s 32 ≡ On (Tag Blank)) × (whole_in_tag s 32 ≡ Nothing) }
    ensures { Leads text.now (record { state = Tag s; mark = mark }) i result.cursor result.place }
{
    if text.len() <= i {
        return stand(State::Tag(s), mark, i);
    }
    if text[i] != b' ' {
        return stand(State::Tag(s), mark, i);
    }
    leap_name(mark, text, i + 1)
}

// In a value: its quote, and what stands behind it.
fn leap_quote(mark: usize, text: &[u8], i: usize) -> Stand
    ensures { Leads text.now (record { state = Tag (Value 34); mark = mark }) i result.cursor result.place }
{
    if text.len() <= i {
        return stand(State::Tag(InTag::Value(b'"')), mark, i);
    }
    if text[i] != b'"' {
        return stand(State::Tag(InTag::Value(b'"')), mark, i);
    }
    leap_blank(InTag::Behind, mark, text, i + 1)
}

// Behind `=`: a value, and what stands behind it.
fn leap_value(mark: usize, text: &[u8], i: usize) -> Stand
    ensures { Leads text.now (record { state = Tag Equals; mark = mark }) i result.cursor result.place }
{
    if text.len() <= i {
        return stand(State::Tag(InTag::Equals), mark, i);
    }
    if text[i] != b'"' {
        return stand(State::Tag(InTag::Equals), mark, i);
    }
    let k = plain_from(b'"', text, i + 1);
    leap_quote(mark, text, k)
}

// Behind `<`: a tag's name, and that of its first attribute.
fn leap_open(mark: usize, text: &[u8], i: usize) -> Stand
    ensures { Leads text.now (record { state = Opening Less; mark = mark }) i result.cursor result.place }
{
    if text.len() <= i {
        return stand(State::Opening(InOpening::Less), mark, i);
    }
    if !begins_name(text[i]) {
        return stand(State::Opening(InOpening::Less), mark, i);
    }
    let k = run(Class::Name, text, i + 1);
    leap_blank(InTag::Name, mark, text, k)
}

// From a markup's first byte on.
pub fn leap_begin(text: &[u8], i: usize) -> Stand
    ensures { Leads text.now (begun i) i result.cursor result.place }
{
    if text.len() <= i {
        return stand(State::Begin, i, i);
    }
    if text[i] != b'<' {
        return stand(State::Begin, i, i);
    }
    leap_open(i, text, i + 1)
}

// The bytes that leave a markup where it is.
fn remain(c: Cursor, text: &[u8], i: usize) -> Stand
    ensures { Leads text.now c i result.cursor result.place }
{
    let s = c.state;
    let k = stay(s, text, i);
    stand(s, c.mark, k)
}

// From where a markup is read so far.
pub fn leap(c: Cursor, text: &[u8], i: usize) -> Stand
    ensures { Leads text.now c i result.cursor result.place }
{
    let s = c.state;
    let State::Tag(t) = s else {
        return remain(c, text, i);
    };
    let InTag::Equals = t else {
        return remain(c, text, i);
    };
    leap_value(c.mark, text, i)
}
