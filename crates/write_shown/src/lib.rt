// The shortest phrases of an element's text: operands, expressions, items, conditions, modes, assignments, and the sign between the pieces of a list.
// Each writer writes from a place on, as far as the lent buffer goes, and returns the place behind its text.
#![tactic(auto)]

ghost use Rattle.std.specs.Prelude.{◌∷◌};
ghost use Rattle.write_buffer.specs.Buffers.{Put};
ghost use Rattle.write_decimals.specs.Decimals.{shown};
ghost use Rattle.write_shown.specs.Shown.{lead, shown_field, shown_operand, shown_pair, shown_expression, shown_item, shown_condition, shown_mode, shown_assignment};
ghost use Rattle.write_shown.specs.Lengths.{operand_most, pair_most, mode_most, assignment_most};

use base_kinds::moves::{A, NA_C};
use base_table::places::{
    A_FIELD, ALWAYS, ASSIGNED, BINDING, DEFAULT, EQUALS, FORM, LEFT, MINUS, OPERAND_NUMBER, PLUS,
    RIGHT,
};
use base_words::counts::FIELDS;
use base_words::{Word, tail, word};
use write_buffer::{put_byte, put_bytes};
use write_decimals::put_number;

// The sign before piece k of a list: none before the first.
pub fn put_lead(out: &mut [u8], from: usize, sign: u8, k: Word) -> usize
    ensures { Put (lead sign k) 1 from out.old result out.new }
{
    if k == 0 {
        return from;
    }
    put_byte(out, from, sign)
}

fn put_lettered(out: &mut [u8], from: usize, letter: u8, n: Word) -> usize
    ensures { Put (letter ∷ shown n) operand_most from out.old result out.new }
{
    let behind = put_byte(out, from, letter);
    put_number(out, behind, n)
}

fn put_field(out: &mut [u8], from: usize, d: Word) -> usize
    ensures { Put (shown_field d) operand_most from out.old result out.new }
{
    if d < FIELDS {
        return put_lettered(out, from, b'd', d);
    }
    put_lettered(out, from, b's', d - FIELDS)
}

fn put_operand(out: &mut [u8], from: usize, x: &[Word]) -> usize
    ensures { Put (shown_operand x.now) operand_most from out.old result out.new }
{
    let number = word(x, OPERAND_NUMBER);
    if word(x, 0) == A_FIELD {
        return put_field(out, from, number);
    }
    put_number(out, from, number)
}

// Two operands with a sign between them.
fn put_pair(out: &mut [u8], from: usize, sign: u8, x: &[Word]) -> usize
    ensures { Put (shown_pair sign x.now) pair_most from out.old result out.new }
{
    let left = put_operand(out, from, tail(x, LEFT));
    let middle = put_byte(out, left, sign);
    put_operand(out, middle, tail(x, RIGHT))
}

fn put_expression(out: &mut [u8], from: usize, x: &[Word]) -> usize
    ensures { Put (shown_expression x.now) pair_most from out.old result out.new }
{
    match word(x, FORM) {
        PLUS => put_pair(out, from, b'+', x),
        MINUS => put_pair(out, from, b'-', x),
        _ => put_operand(out, from, tail(x, LEFT)),
    }
}

// An item of a message or a template.
pub fn put_item(out: &mut [u8], from: usize, x: &[Word]) -> usize
    ensures { Put (shown_item x.now) pair_most from out.old result out.new }
{
    if word(x, FORM) == BINDING {
        let mark = put_byte(out, from, b'?');
        return put_field(out, mark, word(x, LEFT + OPERAND_NUMBER));
    }
    put_expression(out, from, x)
}

pub fn put_condition(out: &mut [u8], from: usize, x: &[Word]) -> usize
    ensures { Put (shown_condition x.now) pair_most from out.old result out.new }
{
    match word(x, FORM) {
        ALWAYS => put_bytes(out, from, b"true"),
        DEFAULT => put_bytes(out, from, b"default"),
        EQUALS => put_pair(out, from, b'=', x),
        _ => put_pair(out, from, b'<', x),
    }
}

pub fn put_mode(out: &mut [u8], from: usize, m: Word) -> usize
    ensures { Put (shown_mode m) mode_most from out.old result out.new }
{
    match m {
        A => put_bytes(out, from, b"a"),
        NA_C => put_bytes(out, from, b"na_c"),
        _ => put_bytes(out, from, b"na_nc"),
    }
}

pub fn put_assignment(out: &mut [u8], from: usize, x: &[Word]) -> usize
    ensures { Put (shown_assignment x.now) assignment_most from out.old result out.new }
{
    let field = put_field(out, from, word(x, 0));
    let sign = put_bytes(out, field, b":=");
    put_expression(out, sign, tail(x, ASSIGNED))
}
