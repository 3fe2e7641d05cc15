// Words as numbers and operands, and words compared.
#![tactic(auto)]

ghost use Rattle.std.specs.Prelude.{◌≡◌, true, ◌+◌, ◌≤◌, drop};
ghost use Rattle.base_words.specs.Counts.{fields_named};
ghost use Rattle.base_bytes.specs.Bytes.{is_digit};
ghost use Rattle.text_numerals.specs.Numerals.{value_from, leading_zero, number_of, is_field_letter, field_behind, field_from, field_of, as_number, as_field};
ghost use Rattle.text_numerals.specs.Numerals.{grown, digits_from, number_by, numeral_at, operand_at};

use base_bytes::{byte, is_digit, piece};
use base_words::counts::{FIELDS, STORES};
use base_words::{GREATEST, Word};
use text_lexer::past_word;

// What a word says as a number: a value within the range, a number above it, or no number.
#[derive(Clone, Copy)]
pub enum Number {
    Value(Word),
    TooLarge,
    NotANumber,
}

// What a word says as an operand: a number or a field, one of them out of its range, or neither.
#[derive(Clone, Copy)]
pub enum Operand {
    Number(Word),
    Field(Word),
    OutOfRange,
    NotAnOperand,
}

// The digits of a word, leading zeros or not. A value above the greatest word grows no more.
fn digits(word: &[u8]) -> Number
    ensures { result ≡ value_from 0 word.now }
{
    let mut v: u64 = 0;
    for &d in word {
        if !is_digit(d) {
            return Number::NotANumber;
        }
        v = grown(v, d);
    }
    if v <= GREATEST as u64 {
        return Number::Value(v as Word);
    }
    Number::TooLarge
}

fn leading_zero(word: &[u8]) -> bool
    ensures { result ≡ leading_zero word.now }
{
    1 < word.len() && byte(word, 0) == b'0'
}

// A word as a number.
pub fn number_of(word: &[u8]) -> Number
    ensures { result ≡ number_of word.now }
{
    if word.len() == 0 {
        return Number::NotANumber;
    }
    if leading_zero(word) {
        return Number::NotANumber;
    }
    digits(word)
}

fn as_number(n: Number) -> Operand
    ensures { result ≡ as_number n }
{
    match n {
        Number::Value(v) => Operand::Number(v),
        Number::TooLarge => Operand::OutOfRange,
        Number::NotANumber => Operand::NotAnOperand,
    }
}

fn as_field(n: Number) -> Operand
    ensures { result ≡ as_field n }
{
    match n {
        Number::Value(d) => Operand::Field(d),
        Number::TooLarge => Operand::OutOfRange,
        Number::NotANumber => Operand::NotAnOperand,
    }
}

// Whether a field's word starts with this byte.
pub fn is_field_letter(letter: u8) -> bool
    ensures { result ≡ is_field_letter letter }
{
    letter == b'd' || letter == b's'
}

// A number below a count, behind those that come before.
fn field_behind(before: Word, count: Word, n: Number) -> Number
    requires { before + count ≤ fields_named }
    ensures { result ≡ field_behind before count n }
{
    match n {
        Number::Value(v) => {
            if v < count {
                return Number::Value(v + before);
            }
            Number::TooLarge
        }
        Number::TooLarge => Number::TooLarge,
        Number::NotANumber => Number::NotANumber,
    }
}

// The number of a field in a table, by its letter and the number behind that.
pub fn field_from(letter: u8, n: Number) -> Number
    ensures { result ≡ field_from letter n }
{
    if letter == b'd' {
        return field_behind(0, FIELDS, n);
    }
    if letter == b's' {
        return field_behind(FIELDS, STORES, n);
    }
    Number::NotANumber
}

// A word as the number of a field in a table.
pub fn field_of(word: &[u8]) -> Number
    ensures { result ≡ field_of word.now }
{
    field_from(byte(word, 0), number_of(piece(word, 1, word.len())))
}

// Digits of a text: what they come to, and the place behind them.
#[derive(Clone, Copy)]
pub struct Decimal {
    pub value: u64,
    pub end: usize,
}

// A value and one digit more; above the greatest word it grows no more.
fn grown(v: u64, d: u8) -> u64
    requires { is_digit d ≡ true }
    ensures { result ≡ grown v d }
{
    if v <= GREATEST as u64 {
        return v * 10 + (d - b'0') as u64;
    }
    v
}

// The digits from a place of the text on.
fn digits_at(text: &[u8], from: usize) -> Decimal
    ensures { result ≡ digits_from 0 (drop from text.now) from }
{
    let mut v: u64 = 0;
    for i in from..text.len() {
        let d = text[i];
        if !is_digit(d) {
            return Decimal { value: v, end: i };
        }
        v = grown(v, d);
    }
    Decimal {
        value: v,
        end: from.max(text.len()),
    }
}

// A word of digits alone, which come to v, as a number.
fn number_by(word: &[u8], v: u64) -> Number
    ensures { result ≡ number_by v word.now }
{
    if word.len() == 0 {
        return Number::NotANumber;
    }
    if leading_zero(word) {
        return Number::NotANumber;
    }
    if v <= GREATEST as u64 {
        return Number::Value(v as Word);
    }
    Number::TooLarge
}

// The word at a place of a text as a number, and the place behind it.
#[derive(Clone, Copy)]
pub struct Numeral {
    pub number: Number,
    pub next: usize,
}

// A word is taken digit by digit, so that a number is gone over once.
pub fn numeral_at(text: &[u8], from: usize) -> Numeral
    ensures { result ≡ numeral_at text.now from }
{
    let d = digits_at(text, from);
    let v = d.value;
    let end = d.end;
    let next = past_word(text, end);
    if end < next {
        return Numeral {
            number: Number::NotANumber,
            next,
        };
    }
    Numeral {
        number: number_by(piece(text, from, end), v),
        next: end,
    }
}

// The word at a place of a text as an operand, and the place behind it.
#[derive(Clone, Copy)]
pub struct Term {
    pub operand: Operand,
    pub next: usize,
}

pub fn operand_at(text: &[u8], p: usize) -> Term
    ensures { result ≡ operand_at text.now p }
{
    if text.len() <= p {
        return Term {
            operand: Operand::NotAnOperand,
            next: p,
        };
    }
    let letter = text[p];
    if !is_field_letter(letter) {
        let plain = numeral_at(text, p);
        let number = plain.number;
        return Term {
            operand: as_number(number),
            next: plain.next,
        };
    }
    let behind = numeral_at(text, p + 1);
    let number = behind.number;
    Term {
        operand: as_field(field_from(letter, number)),
        next: behind.next,
    }
}
