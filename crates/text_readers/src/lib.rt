// Readers of one token: the place behind it, or a refusal with the place of its first byte; what the token says is stored in words that are lent.
#![tactic(auto)]

ghost use Rattle.std.specs.Prelude.{◌≡◌};
ghost use Rattle.text_readers.specs.Reading.{sign_at, assign_at, end_at, keep_number, number, field, keep_operand, operand, mode_named, keep_mode, mode, is_spelled, starts_number, starts_field, starts_sign};

use base_bytes::{byte, piece, same};
use base_kinds::moves::{A, NA_C, NA_NC};
use base_table::places::{A_FIELD, MODE, OPERAND_NUMBER};
use base_words::counts::NAMED;
use base_words::numbers::{EXCESSIVE, MISPLACED};
use base_words::{Word, put};
use text_lexer::{Form, past_blanks, past_word, sign_behind, token_at};
use text_numerals::{Number, Operand, field_of, number_of, numeral_at, operand_at};

// Why a text is refused, a number of document 01, and the place of the token at fault.
#[derive(Clone, Copy)]
pub struct Refusal {
    pub number: Word,
    pub place: usize,
}

// The place behind what was read.
pub type Read = Result<usize, Refusal>;

// A given sign.
pub fn sign_at(text: &[u8], at: usize, s: u8) -> Read
    ensures { result ≡ sign_at s text.now at }
{
    let p = past_blanks(text, at);
    let q = sign_behind(text, p, s);
    if p < q {
        Ok(q)
    } else {
        Err(Refusal {
            number: MISPLACED,
            place: p,
        })
    }
}

// The sign `:=`.
pub fn assign_at(text: &[u8], at: usize) -> Read
    ensures { result ≡ assign_at text.now at }
{
    let token = token_at(text, at);
    let p = token.at;
    let q = token.next;
    let form = token.form;
    let Form::Assign = form else {
        return Err(Refusal {
            number: MISPLACED,
            place: p,
        });
    };
    Ok(q)
}

// The end of the text.
pub fn end_at(text: &[u8], at: usize) -> Read
    ensures { result ≡ end_at text.now at }
{
    let token = token_at(text, at);
    let p = token.at;
    let q = token.next;
    let form = token.form;
    let Form::End = form else {
        return Err(Refusal {
            number: MISPLACED,
            place: p,
        });
    };
    Ok(q)
}

// A number from `least` to `most`, stored; its word stands at p, and q is behind it.
fn keep_number(
    n: Number,
    least: Word,
    most: Word,
    place: u32,
    p: usize,
    q: usize,
    x: &mut [Word],
) -> Read
    ensures { record { end = result; words = x.new } ≡ keep_number n least most place p q x.old }
{
    match n {
        Number::Value(v) => {
            if least <= v && v <= most {
                put(x, place as usize, v);
                return Ok(q);
            }
            Err(Refusal {
                number: EXCESSIVE,
                place: p,
            })
        }
        Number::TooLarge => Err(Refusal {
            number: EXCESSIVE,
            place: p,
        }),
        Number::NotANumber => Err(Refusal {
            number: MISPLACED,
            place: p,
        }),
    }
}

// A number from `least` to `most`, stored at a place of x. Where no word stands, its letters are none, and so it is no number.
pub fn number_in(
    text: &[u8],
    at: usize,
    x: &mut [Word],
    least: Word,
    most: Word,
    place: u32,
) -> Read
    ensures { record { end = result; words = x.new } ≡ number least most place text.now at x.old }
{
    let p = past_blanks(text, at);
    let numeral = numeral_at(text, p);
    let number = numeral.number;
    keep_number(number, least, most, place, p, numeral.next, x)
}

// A field, its number stored at a place of x.
pub fn field_in(text: &[u8], at: usize, x: &mut [Word], place: u32) -> Read
    ensures { record { end = result; words = x.new } ≡ field place text.now at x.old }
{
    let p = past_blanks(text, at);
    let q = past_word(text, p);
    keep_number(field_of(piece(text, p, q)), 0, NAMED - 1, place, p, q, x)
}

// An operand, stored; its word stands at p, and q is behind it.
fn keep_operand(o: Operand, place: u32, p: usize, q: usize, x: &mut [Word]) -> Read
    ensures { record { end = result; words = x.new } ≡ keep_operand o place p q x.old }
{
    match o {
        Operand::Number(v) => {
            put(x, place as usize, 0);
            put(x, place as usize + OPERAND_NUMBER, v);
            Ok(q)
        }
        Operand::Field(d) => {
            put(x, place as usize, A_FIELD);
            put(x, place as usize + OPERAND_NUMBER, d);
            Ok(q)
        }
        Operand::OutOfRange => Err(Refusal {
            number: EXCESSIVE,
            place: p,
        }),
        Operand::NotAnOperand => Err(Refusal {
            number: MISPLACED,
            place: p,
        }),
    }
}

// A number or a field, stored at a place of x and behind it.
pub fn operand_in(text: &[u8], at: usize, x: &mut [Word], place: u32) -> Read
    ensures { record { end = result; words = x.new } ≡ operand place text.now at x.old }
{
    let p = past_blanks(text, at);
    let term = operand_at(text, p);
    let operand = term.operand;
    keep_operand(operand, place, p, term.next, x)
}

// The mode that a word names; 0 where it names none.
fn mode_named(word: &[u8]) -> Word
    ensures { result ≡ mode_named word.now }
{
    if same(word, b"a") {
        return A;
    }
    if same(word, b"na_c") {
        return NA_C;
    }
    if same(word, b"na_nc") {
        return NA_NC;
    }
    0
}

// A mode, stored; its word stands at p, and q is behind it.
fn keep_mode(m: Word, p: usize, q: usize, x: &mut [Word]) -> Read
    ensures { record { end = result; words = x.new } ≡ keep_mode m p q x.old }
{
    if m == 0 {
        return Err(Refusal {
            number: MISPLACED,
            place: p,
        });
    }
    put(x, MODE, m);
    Ok(q)
}

// A task's mode, stored at its place of the element x.
pub fn mode_in(text: &[u8], at: usize, x: &mut [Word]) -> Read
    ensures { record { end = result; words = x.new } ≡ mode text.now at x.old }
{
    let token = token_at(text, at);
    let p = token.at;
    let q = token.next;
    let form = token.form;
    let Form::Word = form else {
        return Err(Refusal {
            number: MISPLACED,
            place: p,
        });
    };
    keep_mode(mode_named(piece(text, p, q)), p, q, x)
}

// Whether a word is a number, within its range or not.
fn is_spelled(n: Number) -> bool
    ensures { result ≡ is_spelled n }
{
    match n {
        Number::Value(v) => true,
        Number::TooLarge => true,
        Number::NotANumber => false,
    }
}

// Whether the token at a place is a number.
pub fn starts_number(text: &[u8], at: usize) -> bool
    ensures { result ≡ starts_number text.now at }
{
    let token = token_at(text, at);
    let p = token.at;
    let q = token.next;
    let form = token.form;
    let Form::Word = form else {
        return false;
    };
    is_spelled(number_of(piece(text, p, q)))
}

// Whether the token at a place is a field.
pub fn starts_field(text: &[u8], at: usize) -> bool
    ensures { result ≡ starts_field text.now at }
{
    let token = token_at(text, at);
    let p = token.at;
    let q = token.next;
    let form = token.form;
    let Form::Word = form else {
        return false;
    };
    is_spelled(field_of(piece(text, p, q)))
}

// Whether the token at a place is a given sign.
pub fn starts_sign(text: &[u8], at: usize, s: u8) -> bool
    ensures { result ≡ starts_sign s text.now at }
{
    let token = token_at(text, at);
    let form = token.form;
    let Form::Sign(b) = form else {
        return false;
    };
    b == s
}
