// Whether operands, expressions, conditions, messages and assignments are within the limits.
ghost use Rattle.std.specs.Prelude.{◌≡◌, drop, ◌+◌};
ghost use Rattle.base_words.specs.Words.{at};
ghost use Rattle.base_words.specs.Counts.{values};
ghost use Rattle.base_table.specs.Places.{operand_words, left_place, right_place, expression_words, items_in, length_in};
ghost use Rattle.check_limits.specs.Limits.{zeros, things, operand_fits, expression_fits, bind_fits, item_fits, condition_fits, message_fits, assignment_fits};

use super::things::things_fit;
use base_kinds::{MANY, NONE};
use base_table::places::{
    A_FIELD, ALWAYS, ASSIGNED, BELOW, BINDING, DEFAULT, EQUALS, EXPRESSION_WORDS, FIRST_ITEM, FORM,
    LEFT, MESSAGE_LENGTH, MINUS, OPERAND_NUMBER, PLUS, RIGHT, SINGLE,
};
use base_words::counts::{NAMED, NAMES, VALUES};
use base_words::{Word, tail, word};
use check_limits::zeros::is_within;

// What an operand, a message and an assignment begin with.
const SORT: usize = 0;

const NAME: usize = 0;

const TARGET: usize = 0;

#[tactic(auto, using(base_words::proofs::PickLaws::picks, crate::proofs::OperandLaws::first_from, crate::proofs::OperandLaws::next_from), unfolding(check_limits::specs::Limits::operand_fits))]
fn operand_fits(x: &[Word], i: usize) -> bool
    ensures { result ≡ operand_fits (drop i x.now) }
{
    let sort = word(x, i);
    sort == 0 || sort == A_FIELD && word(x, i + OPERAND_NUMBER) < NAMED
}

// The second operand of an expression or a condition not in use, and both.
#[tactic(auto, using(crate::proofs::OperandLaws::right_zeros))]
fn right_zero(x: &[Word]) -> bool
    ensures { result ≡ zeros (drop right_place x.now) operand_words }
{
    word(x, RIGHT) | word(x, RIGHT + OPERAND_NUMBER) == 0
}

#[tactic(auto, using(crate::proofs::OperandLaws::both_zeros))]
fn both_zero(x: &[Word]) -> bool
    ensures { result ≡ zeros (drop left_place x.now) (operand_words + operand_words) }
{
    word(x, LEFT) | word(x, LEFT + OPERAND_NUMBER) == 0 && right_zero(x)
}

#[tactic(auto, using(base_words::proofs::PickLaws::picks), unfolding(check_limits::specs::Limits::expression_fits))]
fn expression_fits(x: &[Word]) -> bool
    ensures { result ≡ expression_fits x.now }
{
    if word(x, FORM) == SINGLE {
        operand_fits(x, LEFT) && right_zero(x)
    } else {
        is_within(x, FORM, PLUS, MINUS) && operand_fits(x, LEFT) && operand_fits(x, RIGHT)
    }
}

#[tactic(auto, unfolding(check_limits::specs::Limits::bind_fits))]
fn bind_fits(x: &[Word]) -> bool
    ensures { result ≡ bind_fits x.now }
{
    word(x, LEFT + SORT) == A_FIELD && word(x, LEFT + OPERAND_NUMBER) < NAMED && right_zero(x)
}

#[tactic(auto, using(base_words::proofs::PickLaws::picks), unfolding(check_limits::specs::Limits::item_fits))]
fn item_fits(receives: Word, x: &[Word]) -> bool
    ensures { result ≡ item_fits receives x.now }
{
    if word(x, FORM) == BINDING {
        receives != NONE && bind_fits(x)
    } else {
        expression_fits(x)
    }
}

#[tactic(auto, using(base_words::proofs::PickLaws::picks), unfolding(check_limits::specs::Limits::condition_fits))]
pub fn condition_fits(conditions: Word, x: &[Word]) -> bool
    ensures { result ≡ condition_fits conditions x.now }
{
    let form = word(x, FORM);
    if form == ALWAYS {
        return both_zero(x);
    }
    if form == DEFAULT {
        return conditions == MANY && both_zero(x);
    }
    is_within(x, FORM, EQUALS, BELOW) && operand_fits(x, LEFT) && operand_fits(x, RIGHT)
}

// The items of a message.
fn items_fit(receives: Word, x: &[Word]) -> bool
    ensures { result ≡ things (drop items_in x.now) expression_words values (at x.now length_in) (item_fits receives) }
{
    things_fit(
        tail(x, FIRST_ITEM),
        EXPRESSION_WORDS as Word,
        VALUES,
        word(x, MESSAGE_LENGTH),
        |item| item_fits(receives, item),
    )
}

#[tactic(auto, unfolding(check_limits::specs::Limits::message_fits))]
pub fn message_fits(receives: Word, x: &[Word]) -> bool
    ensures { result ≡ message_fits receives x.now }
{
    word(x, NAME) < NAMES && word(x, MESSAGE_LENGTH) <= VALUES && items_fit(receives, x)
}

#[tactic(auto, unfolding(check_limits::specs::Limits::assignment_fits))]
pub fn assignment_fits(x: &[Word]) -> bool
    ensures { result ≡ assignment_fits x.now }
{
    word(x, TARGET) < NAMED && expression_fits(tail(x, ASSIGNED))
}
