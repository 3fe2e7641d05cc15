// Conditions: a guard, a branch's condition, and the default.
ghost use Rattle.std.specs.Prelude.{◌≡◌};
ghost use Rattle.base_words.specs.All.{all};
ghost use Rattle.base_table.specs.Table.{condition_at};
ghost use Rattle.meaning.specs.Conditions.{condition_of, default_at, left_out, other_false, holds};

use super::operand;
use base_table::places::{ALWAYS, BELOW, DEFAULT, EQUALS, FORM, LEFT, RIGHT};
use base_table::{condition_at, exit_count};
use base_words::{Word, word};
use meaning::Truth;

pub fn condition(x: &[Word], h: &[Word]) -> Truth
    ensures { result ≡ condition_of x.now h.now }
{
    let form = word(x, FORM);
    if form == ALWAYS {
        return Truth::True;
    }
    let a = operand(x, h, LEFT as Word);
    let b = operand(x, h, RIGHT as Word);
    if form == EQUALS {
        return step_values::equal(a, b);
    }
    if form == BELOW {
        return step_values::less(a, b);
    }
    Truth::Neither
}

fn condition_of(el: &[Word], h: &[Word], b: Word) -> Truth
    ensures { result ≡ condition_of (condition_at el.now b) h.now }
{
    condition(condition_at(el, b), h)
}

fn is_default(el: &[Word], b: Word) -> bool
    ensures { result ≡ default_at el.now b }
{
    let x = condition_at(el, b);
    word(x, FORM) == DEFAULT
}

fn is_left_out(el: &[Word], b: Word, j: Word) -> bool
    ensures { result ≡ left_out el.now b j }
{
    if is_default(el, b) {
        return j == b;
    }
    is_default(el, j)
}

fn other_false(el: &[Word], h: &[Word], b: Word, j: Word) -> bool
    ensures { result ≡ other_false el.now h.now b j }
{
    is_left_out(el, b, j) || step_values::is_false(condition_of(el, h, j))
}

fn others_false(el: &[Word], h: &[Word], b: Word, n: Word) -> bool
    ensures { result ≡ all (other_false el.now h.now b) n }
{
    (0..n).all(|j| other_false(el, h, b, j))
}

// Whether the condition of branch b is true and those of the earlier ones are false; where it is the default, whether all others are false.
pub fn does_hold(el: &[Word], h: &[Word], b: Word) -> bool
    ensures { result ≡ holds el.now h.now b }
{
    if is_default(el, b) {
        return others_false(el, h, b, exit_count(el));
    }
    step_values::is_true(condition_of(el, h, b)) && others_false(el, h, b, b)
}
