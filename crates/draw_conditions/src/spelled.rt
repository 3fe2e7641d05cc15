// Tokens of document 01 in what an element says.
ghost use Rattle.std.specs.Prelude.{◌≡◌, true, false, [], ◌∷◌, ◌-◌};
ghost use Rattle.text_lexer.specs.Lexer.{is_blank, is_word};
ghost use Rattle.text_numerals.specs.Numerals.{value_from, leading_zero, number_of, as_number, as_field};
ghost use Rattle.base_bytes.specs.Bytes.{same_bytes};
ghost use Rattle.draw_conditions.specs.Saying.{said};
ghost use Rattle.draw_conditions.specs.Words.{is_of, behind, letters, spelt, goes_on, is_over, grown, term, nothing, side, side_of, side_at};

use super::Term;
use super::saying::{Seen, Spot, arrive, look};
use base_bytes::is_digit;
use base_table::places::A_FIELD;
use base_words::{GREATEST, Word};
use text_numerals::{Number, field_from, is_field_letter};
use xml_characters::{begins_name, is_blank};

// Bytes that are passed together: blanks, a word's.
#[derive(Clone, Copy)]
pub enum Class {
    Blanks,
    Word,
}

// An operand, and its place where it is out of range; or none.
#[derive(Clone, Copy)]
pub struct Side {
    pub stands: bool,
    pub term: Term,
    pub beyond: usize,
}

// Blanks of document 01 are those of XML without CR.
fn is_separator(b: u8) -> bool
    ensures { result ≡ is_blank b }
{
    b != b'\r' && is_blank(b)
}

// Letters of document 01 are those of an XML name, without `:` and what stands above ASCII.
fn is_word(b: u8) -> bool
    ensures { result ≡ is_word b }
{
    if b == b':' {
        return false;
    }
    if 128 <= b {
        return false;
    }
    if is_digit(b) {
        return true;
    }
    begins_name(b)
}

#[tactic(auto, unfolding(crate::specs::Words::is_of))]
fn is_of(class: Class, b: u8) -> bool
    ensures { result ≡ is_of class b }
{
    match class {
        Class::Blanks => is_separator(b),
        Class::Word => is_word(b),
    }
}

// The spot behind the blanks, or behind the word, that come first.
pub(super) fn behind(text: &[u8], s: Spot, class: Class) -> Spot
    ensures { said text.now result ≡ behind class (said text.now s) }
{
    let mut at = s;
    loop {
        let Some(v) = look(text, at) else {
            return at;
        };
        if !is_of(class, v.byte) {
            return arrive(text, at);
        }
        at = v.next;
    }
}

// Whether nothing more is said.
pub(super) fn is_over(text: &[u8], s: Spot) -> bool
    ensures { result ≡ is_over (said text.now s) }
{
    look(text, s).is_none()
}

// The next byte, where it is of a word.
fn letter(text: &[u8], s: Spot) -> Option<Seen>
    ensures { letters (said text.now s) ≡ spelt text.now result }
{
    let v = look(text, s)?;
    if is_word(v.byte) { Some(v) } else { None }
}

fn goes_on(text: &[u8], s: Spot) -> bool
    ensures { result ≡ goes_on (letters (said text.now s)) }
{
    letter(text, s).is_some()
}

// Whether the word that comes first is this one.
pub(super) fn spells(text: &[u8], s: Spot, word: &[u8]) -> bool
    ensures { result ≡ same_bytes (letters (said text.now s)) word.now }
{
    let mut at = s;
    for b in word {
        let Some(v) = letter(text, at) else {
            return false;
        };
        if v.byte != *b {
            return false;
        }
        at = v.next;
    }
    !goes_on(text, at)
}

fn worth(b: u8) -> u8
    ensures { result ≡ b - 48 }
{
    if b < b'0' { 0 } else { b - b'0' }
}

// A value above the greatest word grows no more.
#[tactic(auto, using(base_words::proofs::PickLaws::picks), unfolding(crate::specs::Words::grown))]
fn grown(v: u64, b: u8) -> u64
    ensures { result ≡ grown v b }
{
    if v <= GREATEST as u64 {
        return v * 10 + worth(b) as u64;
    }
    v
}

#[tactic(auto, using(base_words::proofs::PickLaws::picks), unfolding(text_numerals::specs::Numerals::value_from))]
fn value_of(v: u64) -> Number
    ensures { result ≡ value_from v [] }
{
    if v <= GREATEST as u64 {
        return Number::Value(v as Word);
    }
    Number::TooLarge
}

// The digits of a word, leading zeros or not.
fn digits(text: &[u8], s: Spot) -> Number
    ensures { result ≡ value_from 0 (letters (said text.now s)) }
{
    let mut v: u64 = 0;
    let mut at = s;
    loop {
        let Some(x) = letter(text, at) else {
            return value_of(v);
        };
        if !is_digit(x.byte) {
            return Number::NotANumber;
        }
        v = grown(v, x.byte);
        at = x.next;
    }
}

fn leading_zero(text: &[u8], b: u8, next: Spot) -> bool
    ensures { result ≡ leading_zero (b ∷ letters (said text.now next)) }
{
    b == b'0' && goes_on(text, next)
}

fn number_at(text: &[u8], s: Spot) -> Number
    ensures { result ≡ number_of (letters (said text.now s)) }
{
    let Some(v) = letter(text, s) else {
        return Number::NotANumber;
    };
    if leading_zero(text, v.byte, v.next) {
        return Number::NotANumber;
    }
    digits(text, s)
}

fn none() -> Side
    ensures { result ≡ side false nothing 0 }
{
    Side {
        stands: false,
        term: Term { flag: 0, number: 0 },
        beyond: 0,
    }
}

fn within(flag: Word, v: Word) -> Side
    ensures { result ≡ side true (term flag v) 0 }
{
    Side {
        stands: true,
        term: Term { flag, number: v },
        beyond: 0,
    }
}

fn out_of_range(place: usize) -> Side
    ensures { result ≡ side true nothing place }
{
    Side {
        stands: true,
        term: Term { flag: 0, number: 0 },
        beyond: place,
    }
}

fn number_side(n: Number, place: usize) -> Side
    ensures { result ≡ side_of (as_number n) place }
{
    match n {
        Number::Value(v) => within(0, v),
        Number::TooLarge => out_of_range(place),
        Number::NotANumber => none(),
    }
}

fn field_side(n: Number, place: usize) -> Side
    ensures { result ≡ side_of (as_field n) place }
{
    match n {
        Number::Value(d) => within(A_FIELD, d),
        Number::TooLarge => out_of_range(place),
        Number::NotANumber => none(),
    }
}

// The operand that comes first.
pub(super) fn side_at(text: &[u8], s: Spot) -> Side
    ensures { result ≡ side_at (said text.now s) }
{
    let Some(v) = look(text, s) else {
        return none();
    };
    if is_field_letter(v.byte) {
        return field_side(field_from(v.byte, number_at(text, v.next)), v.place);
    }
    number_side(number_at(text, s), v.place)
}
