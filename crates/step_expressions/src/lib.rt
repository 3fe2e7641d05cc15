// Expressions over the fields of an instance.
#![tactic(auto)]

ghost use Rattle.std.specs.Prelude.{◌≡◌, ◌<◌};
ghost use Rattle.meaning.specs.Expressions.{field_of, operand_of, expression_of};

use base_state::{defined_at, value_at};
use base_table::places::{FORM, LEFT, MINUS, OPERAND_NUMBER, PLUS, RIGHT};
use base_words::{Word, word};
use meaning::Value;

pub mod assignments;
pub mod conditions;
pub mod templates;

// Field d of an instance.
pub fn field_of(h: &[Word], d: Word) -> Value
    ensures { result ≡ field_of h.now d }
{
    if defined_at(h, d) == 0 {
        None
    } else {
        Some(value_at(h, d))
    }
}

// The operand at place p of an expression or a condition x.
pub fn operand(x: &[Word], h: &[Word], p: Word) -> Value
    ensures { result ≡ operand_of x.now h.now p }
{
    let n = word(x, (p as usize) + OPERAND_NUMBER);
    if word(x, p as usize) == 0 {
        return Some(n);
    }
    field_of(h, n)
}

pub fn expression(x: &[Word], h: &[Word]) -> Value
    ensures { result ≡ expression_of x.now h.now }
{
    let form = word(x, FORM);
    let a = operand(x, h, LEFT as Word);
    if form == PLUS {
        return step_values::sum(a, operand(x, h, RIGHT as Word));
    }
    if form == MINUS {
        return step_values::difference(a, operand(x, h, RIGHT as Word));
    }
    a
}
