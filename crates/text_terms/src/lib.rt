// The terms of an element's text: expressions, items of a template, conditions, assignments, guarded branches; each is stored at its place in the words of the element.
#![tactic(auto)]

ghost use Rattle.std.specs.Prelude.{◌≡◌, ◌&&◌, ◌+◌, ◌≤◌, set};
ghost use Rattle.base_words.specs.Text.{bytes};
ghost use Rattle.base_words.specs.Words.{part};
ghost use Rattle.base_table.specs.Places.{form_place, item_place, condition_place};
ghost use Rattle.text_terms.specs.Terms.{joint, expression, bind, template_item, comparison, condition, assignment, guarded};
ghost use Rattle.text_terms.specs.Tails.{farthest, joined_by, compared, condition_word, guard};
ghost use Rattle.text_readers.specs.Reading.{passed_to, place_of, behind};
ghost use Rattle.base_bytes.specs.Bytes.{same_bytes};

use base_bytes::{piece, same};
use base_table::places::{
    A_FIELD, ALWAYS, ASSIGNED, ASSIGNMENT_WORDS, BELOW, BINDING, CONDITIONS, DEFAULT, EQUALS,
    EXITS, EXPRESSION_WORDS, FIRST_ASSIGNMENT, FIRST_EDGE, FIRST_ITEM, FORM, LEFT, MESSAGE_WORDS,
    MESSAGES, MINUS, OPERAND_NUMBER, PLUS, RIGHT, SINGLE,
};
use base_words::counts::EDGES;
use base_words::numbers::MISPLACED;
use base_words::{Word, put};
use text_lexer::{Form, token_at};
use text_readers::{Read, Refusal, assign_at, field_in, number_in, operand_in, sign_at};

// A form, and the second operand.
fn joined(text: &[u8], at: usize, x: &mut [Word], place: u32, form: Word) -> Read
    requires { place ≤ farthest }
    ensures { record { end = result; words = x.new } ≡ joined_by form place text.now at x.old }
{
    put(x, place as usize + FORM, form);
    operand_in(text, at, x, place + RIGHT as u32)
}

// What stands behind the first operand of an expression.
fn joint(text: &[u8], at: usize, x: &mut [Word], place: u32) -> Read
    requires { place ≤ farthest }
    ensures { record { end = result; words = x.new } ≡ joint place text.now at x.old }
{
    if let Ok(q) = sign_at(text, at, b'+') {
        return joined(text, q, x, place, PLUS);
    }
    if let Ok(q) = sign_at(text, at, b'-') {
        return joined(text, q, x, place, MINUS);
    }
    put(x, place as usize + FORM, SINGLE);
    Ok(at)
}

fn expression(text: &[u8], at: usize, x: &mut [Word], place: u32) -> Read
    requires { place ≤ farthest }
    ensures { record { end = result; words = x.new } ≡ expression place text.now at x.old }
{
    let q = operand_in(text, at, x, place + LEFT as u32)?;
    joint(text, q, x, place)
}

// A field that is bound.
fn bind(text: &[u8], at: usize, x: &mut [Word], place: u32) -> Read
    requires { place ≤ farthest }
    ensures { record { end = result; words = x.new } ≡ bind place text.now at x.old }
{
    put(x, place as usize + FORM, BINDING);
    put(x, place as usize + LEFT, A_FIELD);
    field_in(text, at, x, place + LEFT as u32 + OPERAND_NUMBER as u32)
}

fn template_item(text: &[u8], at: usize, x: &mut [Word], place: u32) -> Read
    requires { place ≤ farthest }
    ensures { record { end = result; words = x.new } ≡ template_item place text.now at x.old }
{
    if let Ok(q) = sign_at(text, at, b'?') {
        return bind(text, q, x, place);
    }
    expression(text, at, x, place)
}

// The place of item k of the message of branch b.
fn item_place(b: u8, k: u8) -> u32
    ensures { (result ≡ item_place b k) × (result ≤ farthest) }
{
    MESSAGES as u32
        + MESSAGE_WORDS as u32 * (b as u32)
        + FIRST_ITEM as u32
        + EXPRESSION_WORDS as u32 * (k as u32)
}

// Item k of the message of branch b.
pub fn item_of_message(text: &[u8], at: usize, x: &mut [Word], b: u8, k: u8) -> Read
    ensures { record { end = result; words = x.new } ≡ expression (item_place b k) text.now at x.old }
{
    expression(text, at, x, item_place(b, k))
}

// Item k of the template of branch b.
pub fn item_of_template(text: &[u8], at: usize, x: &mut [Word], b: u8, k: u8) -> Read
    ensures { record { end = result; words = x.new } ≡ template_item (item_place b k) text.now at x.old }
{
    template_item(text, at, x, item_place(b, k))
}

// What stands behind the first operand of a condition.
fn comparison(text: &[u8], at: usize, x: &mut [Word], place: u32) -> Read
    requires { place ≤ farthest }
    ensures { record { end = result; words = x.new } ≡ comparison place text.now at x.old }
{
    if let Ok(q) = sign_at(text, at, b'=') {
        return joined(text, q, x, place, EQUALS);
    }
    let q = sign_at(text, at, b'<')?;
    joined(text, q, x, place, BELOW)
}

fn compared(text: &[u8], at: usize, x: &mut [Word], place: u32) -> Read
    requires { place ≤ farthest }
    ensures { record { end = result; words = x.new } ≡ compared place text.now at x.old }
{
    let q = operand_in(text, at, x, place + LEFT as u32)?;
    comparison(text, q, x, place)
}

// Whether the word from p to q is a given one.
fn is_spelled(text: &[u8], p: usize, q: usize, word: &[u8]) -> bool
    ensures { result ≡ same_bytes (part text.now p q) word.now }
{
    same(piece(text, p, q), word)
}

fn is_default(text: &[u8], p: usize, q: usize, defaults: bool) -> bool
    ensures { result ≡ defaults && same_bytes (part text.now p q) (bytes "default") }
{
    if defaults {
        return is_spelled(text, p, q, b"default");
    }
    false
}

// A form that a word says; q is behind it.
fn keep_form(q: usize, x: &mut [Word], place: u32, form: Word) -> Read
    ensures { record { end = result; words = x.new } ≡ passed_to q (set x.old (place + form_place) form) }
{
    put(x, place as usize + FORM, form);
    Ok(q)
}

// A condition that starts with the word from p to q.
fn condition_word(
    text: &[u8],
    at: usize,
    p: usize,
    q: usize,
    x: &mut [Word],
    defaults: bool,
    place: u32,
) -> Read
    requires { (p ≡ place_of text.now at) × (q ≡ behind text.now at) × (place ≤ farthest) }
    ensures { record { end = result; words = x.new } ≡ condition_word defaults place text.now at x.old }
{
    if is_spelled(text, p, q, b"true") {
        return keep_form(q, x, place, ALWAYS);
    }
    if is_default(text, p, q, defaults) {
        return keep_form(q, x, place, DEFAULT);
    }
    compared(text, at, x, place)
}

fn condition(text: &[u8], at: usize, x: &mut [Word], defaults: bool, place: u32) -> Read
    requires { place ≤ farthest }
    ensures { record { end = result; words = x.new } ≡ condition defaults place text.now at x.old }
{
    let token = token_at(text, at);
    let p = token.at;
    let q = token.next;
    let form = token.form;
    let Form::Word = form else {
        return Err(Refusal {
            number: MISPLACED,
            place: p,
        });
    };
    condition_word(text, at, p, q, x, defaults, place)
}

// The condition of branch b.
pub fn condition_of(text: &[u8], at: usize, x: &mut [Word], defaults: bool, b: u8) -> Read
    ensures { record { end = result; words = x.new } ≡ condition defaults (condition_place b) text.now at x.old }
{
    condition(
        text,
        at,
        x,
        defaults,
        CONDITIONS as u32 + EXPRESSION_WORDS as u32 * (b as u32),
    )
}

// Assignment j.
pub fn assignment(text: &[u8], at: usize, x: &mut [Word], j: u8) -> Read
    ensures { record { end = result; words = x.new } ≡ assignment j text.now at x.old }
{
    let place = FIRST_ASSIGNMENT as u32 + ASSIGNMENT_WORDS as u32 * (j as u32);
    let q = field_in(text, at, x, place)?;
    let a = assign_at(text, q)?;
    expression(text, a, x, place + ASSIGNED as u32)
}

// Behind the edge of a guarded branch.
fn guard(text: &[u8], at: usize, x: &mut [Word], b: u8) -> Read
    ensures { record { end = result; words = x.new } ≡ guard b text.now at x.old }
{
    let q = sign_at(text, at, b',')?;
    let a = condition_of(text, q, x, true, b)?;
    sign_at(text, a, b')')
}

// The guarded branch b of an xorSplit.
pub fn guarded(text: &[u8], at: usize, x: &mut [Word], b: u8) -> Read
    ensures { record { end = result; words = x.new } ≡ guarded b text.now at x.old }
{
    let q = sign_at(text, at, b'(')?;
    let a = number_in(
        text,
        q,
        x,
        1,
        EDGES,
        EXITS as u32 + FIRST_EDGE as u32 + (b as u32),
    )?;
    guard(text, a, x, b)
}
