// Values, sums and comparisons; tuples of values.
#![tactic(auto)]

ghost use Rattle.std.specs.Prelude.{◌≡◌};
ghost use Rattle.meaning.specs.Values.{sum_of, difference_of, equal_of, less_of, is_true, is_false, is_defined, number_in};

use base_words::Word;
use meaning::{Truth, Value};

pub mod tuples;

#[tactic(auto, unfolding(meaning::specs::Values::sum_of))]
pub fn sum(a: Value, b: Value) -> Value
    ensures { result ≡ sum_of a b }
{
    a?.checked_add(b?)
}

#[tactic(auto, unfolding(meaning::specs::Values::difference_of))]
pub fn difference(a: Value, b: Value) -> Value
    ensures { result ≡ difference_of a b }
{
    a?.checked_sub(b?)
}

#[tactic(auto, unfolding(meaning::specs::Values::equal_of))]
pub fn equal(a: Value, b: Value) -> Truth
    ensures { result ≡ equal_of a b }
{
    let (Some(x), Some(y)) = (a, b) else {
        return Truth::Neither;
    };
    if x == y { Truth::True } else { Truth::False }
}

#[tactic(auto, unfolding(meaning::specs::Values::less_of))]
pub fn less(a: Value, b: Value) -> Truth
    ensures { result ≡ less_of a b }
{
    let (Some(x), Some(y)) = (a, b) else {
        return Truth::Neither;
    };
    if x < y { Truth::True } else { Truth::False }
}

#[tactic(auto, unfolding(meaning::specs::Values::is_true))]
pub fn is_true(t: Truth) -> bool
    ensures { result ≡ is_true t }
{
    matches!(t, Truth::True)
}

#[tactic(auto, unfolding(meaning::specs::Values::is_false))]
pub fn is_false(t: Truth) -> bool
    ensures { result ≡ is_false t }
{
    matches!(t, Truth::False)
}

#[tactic(auto, unfolding(meaning::specs::Values::is_defined))]
pub fn is_defined(v: Value) -> bool
    ensures { result ≡ is_defined v }
{
    v.is_some()
}

// The number of a defined value; 0 stands for an undefined one.
#[tactic(auto, unfolding(meaning::specs::Values::number_in))]
pub fn number_in(v: Value) -> Word
    ensures { result ≡ number_in v }
{
    v.unwrap_or(0)
}
