// Which element is which thing, by its name, what it stands in and its attributes.
ghost use Rattle.std.specs.Prelude.{◌≡◌, ◌<◌};
ghost use Rattle.base_bytes.specs.Bytes.{same_bytes};
ghost use Rattle.draw_things.specs.Names.{row_count, padded, row_named, row_of, is_false, is_one, differs, value_bytes, value_behind, differs_at, draws_another, is_event, family, named_at, drawn_as};
ghost use Rattle.xml_markup.specs.Spans.{name_at, bytes_of, local_of};

use super::things::{INTERMEDIATE_THROW_EVENT, NOTHING, Note, PROCESS, START_EVENT, STRANGER};
use base_bytes::{byte, piece, same};
use xml_markup::leaping::{leap, leap_begin};
use xml_markup::spans::{bytes_of, local_of, name_at, quote_at, value_at};
use xml_markup::tokens::{moved, whole};
use xml_markup::{Cursor, Scan, Whole};

// The letters of the longest name, and the names that are told.
const LETTERS: usize = 24;

const ROWS: usize = 67;

// Names are compared whole: blanks stand behind each.
const NAMES: [[u8; LETTERS]; ROWS] = [
    *b"collaboration           ",
    *b"process                 ",
    *b"participant             ",
    *b"messageFlow             ",
    *b"participantMultiplicity ",
    *b"startEvent              ",
    *b"endEvent                ",
    *b"intermediateCatchEvent  ",
    *b"intermediateThrowEvent  ",
    *b"task                    ",
    *b"sendTask                ",
    *b"receiveTask             ",
    *b"parallelGateway         ",
    *b"exclusiveGateway        ",
    *b"eventBasedGateway       ",
    *b"sequenceFlow            ",
    *b"messageEventDefinition  ",
    *b"terminateEventDefinition",
    *b"conditionExpression     ",
    *b"documentation           ",
    *b"extensionElements       ",
    *b"BPMNDiagram             ",
    *b"import                  ",
    *b"extension               ",
    *b"relationship            ",
    *b"message                 ",
    *b"itemDefinition          ",
    *b"category                ",
    *b"interface               ",
    *b"resource                ",
    *b"error                   ",
    *b"escalation              ",
    *b"signal                  ",
    *b"dataStore               ",
    *b"endPoint                ",
    *b"partnerEntity           ",
    *b"partnerRole             ",
    *b"correlationProperty     ",
    *b"textAnnotation          ",
    *b"association             ",
    *b"group                   ",
    *b"interfaceRef            ",
    *b"endPointRef             ",
    *b"laneSet                 ",
    *b"dataObject              ",
    *b"dataObjectReference     ",
    *b"property                ",
    *b"ioSpecification         ",
    *b"ioBinding               ",
    *b"auditing                ",
    *b"monitoring              ",
    *b"supports                ",
    *b"supportedInterfaceRef   ",
    *b"correlationSubscription ",
    *b"categoryValueRef        ",
    *b"incoming                ",
    *b"outgoing                ",
    *b"dataInputAssociation    ",
    *b"dataOutputAssociation   ",
    *b"dataInput               ",
    *b"dataOutput              ",
    *b"inputSet                ",
    *b"outputSet               ",
    *b"resourceRole            ",
    *b"performer               ",
    *b"humanPerformer          ",
    *b"potentialOwner          ",
];

const LENGTHS: [u8; ROWS] =
    *b"\x0d\x07\x0b\x0b\x17\x0a\x08\x16\x16\x04\x08\x0b\x0f\x10\x11\x0c\x16\x18\x13\x0d\x11\x0b\x06\x09\x0c\x07\x0e\x08\x09\x08\x05\x0a\x06\x09\x08\x0d\x0b\x13\x0e\x0b\x05\x0c\x0b\x07\x0a\x13\x08\x0f\x09\x08\x0a\x08\x15\x17\x10\x08\x08\x14\x15\x09\x0a\x08\x09\x0c\x09\x0e\x0e";

// What a name draws, and what that stands in: the numbers of the sorts, and 0 for the names that say nothing.
const SORTS: [u8; ROWS] =
    *b"\x02\x06\x03\x05\x04\x0c\x0d\x0e\x0f\x10\x11\x12\x13\x14\x15\x07\x09\x0a\x08\x00\x00\x00\x00\x00\x00\x00\x00\x00\x00\x00\x00\x00\x00\x00\x00\x00\x00\x00\x00\x00\x00\x00\x00\x00\x00\x00\x00\x00\x00\x00\x00\x00\x00\x00\x00\x00\x00\x00\x00\x00\x00\x00\x00\x00\x00\x00\x00";

const PARENTS: [u8; ROWS] =
    *b"\x01\x01\x02\x02\x03\x06\x06\x06\x06\x06\x06\x06\x06\x06\x06\x06\x0c\x0c\x07\x00\x00\x00\x00\x00\x00\x00\x00\x00\x00\x00\x00\x00\x00\x00\x00\x00\x00\x00\x00\x00\x00\x00\x00\x00\x00\x00\x00\x00\x00\x00\x00\x00\x00\x00\x00\x00\x00\x00\x00\x00\x00\x00\x00\x00\x00\x00\x00";

fn padded_name(i: usize) -> [u8; LETTERS]
    requires { i < row_count }
    ensures { result ≡ padded (row_of i).name }
{
    NAMES[i]
}

// Whether a name is that of a row.
fn is_row(name: &[u8], i: usize) -> bool
    requires { i < row_count }
    ensures { result ≡ same_bytes name.now (row_of i).name }
{
    let length = byte(&LENGTHS, i) as usize;
    if name.len() != length {
        return false;
    }
    let row = padded_name(i);
    same(name, piece(&row, 0, length))
}

// The row of a name; behind them all where there is none.
fn row_named(name: &[u8]) -> usize
    ensures { result ≡ row_named name.now }
{
    for i in 0..ROWS {
        if is_row(name, i) {
            return i;
        }
    }
    ROWS
}

fn row_sort(i: usize) -> Note
    ensures { result ≡ (row_of i).sort }
{
    if ROWS <= i {
        return STRANGER;
    }
    byte(&SORTS, i) as Note
}

fn row_parent(i: usize) -> Note
    ensures { result ≡ (row_of i).parent }
{
    byte(&PARENTS, i) as Note
}

fn is_false(name: &[u8]) -> bool
    ensures { result ≡ is_false name.now }
{
    if same(name, b"instantiate") {
        return true;
    }
    if same(name, b"isForCompensation") {
        return true;
    }
    same(name, b"isCollection")
}

fn is_one(name: &[u8]) -> bool
    ensures { result ≡ is_one name.now }
{
    if same(name, b"startQuantity") {
        return true;
    }
    same(name, b"completionQuantity")
}

// Whether an attribute has another value than the one that it may have.
#[tactic(auto, using(base_words::proofs::PickLaws::picks), unfolding(crate::specs::Names::differs))]
fn differs(name: &[u8], value: &[u8]) -> bool
    ensures { result ≡ differs name.now value.now }
{
    if is_false(name) {
        return !same(value, b"false");
    }
    if is_one(name) {
        return !same(value, b"1");
    }
    if same(name, b"eventGatewayType") {
        return !same(value, b"Exclusive");
    }
    false
}

fn value_bytes(text: &[u8], a: Option<(usize, usize)>) -> &[u8]
    ensures { result.now ≡ value_bytes text.now a }
{
    match a {
        Some((from, to)) => piece(text, from, to),
        None => piece(text, 0, 0),
    }
}

#[tactic(auto, unfolding(crate::specs::Names::value_behind))]
fn value_behind(text: &[u8], i: usize) -> &[u8]
    ensures { result.now ≡ value_behind text.now i }
{
    value_bytes(text, value_at(text, quote_at(text, i)))
}

fn differs_at(text: &[u8], c: Cursor, i: usize) -> bool
    ensures { result ≡ differs_at text.now c i }
{
    let s = c.state;
    let w = whole(s, byte(text, i));
    let Whole::Attribute = w else {
        return false;
    };
    differs(piece(text, c.mark, i), value_behind(text, i))
}

// Whether the tag at a place has an attribute with another value than it may have.
fn draws_another(text: &[u8], p: usize) -> bool
    ensures { result ≡ draws_another text.now p }
{
    let b = leap_begin(text, p);
    let mut c = b.cursor;
    let mut i = b.place;
    // Stays a while: bytes that change nothing are leapt over.
    while i < text.len() {
        if differs_at(text, c, i) {
            return true;
        }
        let a = moved(c, byte(text, i), i, i + 1);
        let Scan::On(next) = a else {
            return false;
        };
        let l = leap(next, text, i + 1);
        c = l.cursor;
        i = l.place;
    }
    false
}

#[tactic(auto, unfolding(crate::specs::Names::is_event))]
fn is_event(s: Note) -> bool
    ensures { result ≡ is_event s }
{
    START_EVENT <= s && s <= INTERMEDIATE_THROW_EVENT
}

#[tactic(auto, using(base_words::proofs::PickLaws::picks), unfolding(crate::specs::Names::family))]
fn family(s: Note) -> Note
    ensures { result ≡ family s }
{
    if is_event(s) { START_EVENT } else { s }
}

fn row_at(text: &[u8], p: usize) -> usize
    ensures { result ≡ row_named (local_of (bytes_of text.now (name_at text.now p))) }
{
    row_named(local_of(bytes_of(text, name_at(text, p))))
}

// The sort that the element at a place has by its name, inside a thing of the sort `parent`.
pub fn named_at(parent: Note, text: &[u8], p: usize) -> Note
    ensures { result ≡ named_at parent text.now p }
{
    let i = row_at(text, p);
    let s = row_sort(i);
    if s == NOTHING {
        return NOTHING;
    }
    if row_parent(i) != family(parent) {
        return STRANGER;
    }
    s
}

// What is drawn by the element at a place whose name draws s, inside a thing of the sort `parent`.
pub fn drawn_as(s: Note, parent: Note, text: &[u8], p: usize) -> Note
    ensures { result ≡ drawn_as s parent text.now p }
{
    if parent != PROCESS {
        return s;
    }
    if draws_another(text, p) {
        return STRANGER;
    }
    s
}
