// Templates and messages, worked out; the binds of a template.
ghost use Rattle.std.specs.Prelude.{◌≡◌, ◌&&◌};
ghost use Rattle.meaning.specs.Values.{is_defined};
ghost use Rattle.meaning.specs.Templates.{binds, item_value, gathered, evaluated, bind_one, bound};
ghost use Rattle.step_expressions.specs.Suited.{item_suits, suited};

use super::expression;
use base_state::put_field;
use base_table::places::{BINDING, FORM, LEFT, OPERAND_NUMBER};
use base_table::{item_at, message_length};
use base_words::counts::VALUES;
use base_words::{Word, wide, word};
use meaning::{Evaluated, Tuple, Value};
use step_values::tuples::value_of;
use step_values::{is_defined, number_in};

fn does_bind(el: &[Word], b: Word, j: Word) -> bool
    ensures { result ≡ binds el.now b j }
{
    j < message_length(el, b) && word(item_at(el, b, j), FORM) == BINDING
}

fn item_value(el: &[Word], b: Word, h: &[Word], g: Tuple, j: Word) -> Value
    ensures { result ≡ item_value el.now b h.now g j }
{
    if message_length(el, b) <= j {
        return Some(0);
    }
    if does_bind(el, b, j) {
        return Some(value_of(g, j));
    }
    expression(item_at(el, b, j), h)
}

fn all_defined(u: Value, v: Value, w: Value, x: Value) -> bool
    ensures { result ≡ is_defined u && is_defined v && is_defined w && is_defined x }
{
    is_defined(u) && is_defined(v) && is_defined(w) && is_defined(x)
}

fn gather(n: Word, u: Value, v: Value, w: Value, x: Value) -> Evaluated
    ensures { result ≡ gathered n u v w x }
{
    Evaluated {
        defined: all_defined(u, v, w, x),
        tuple: Tuple {
            length: n,
            values: [number_in(u), number_in(v), number_in(w), number_in(x)],
        },
    }
}

// The message or template of branch b, worked out with the given values where it binds.
pub fn evaluate(el: &[Word], b: Word, h: &[Word], g: Tuple) -> Evaluated
    ensures { result ≡ evaluated el.now b h.now g }
{
    let n = message_length(el, b);
    let u = item_value(el, b, h, g, 0);
    let v = item_value(el, b, h, g, 1);
    let w = item_value(el, b, h, g, 2);
    let x = item_value(el, b, h, g, 3);
    gather(n, u, v, w, x)
}

fn item_suits(el: &[Word], b: Word, w: Tuple, g: Tuple, j: Word) -> bool
    ensures { result ≡ item_suits el.now b w g j }
{
    word(&w.values, wide(j)) == word(&g.values, wide(j)) || does_bind(el, b, j)
}

// Whether values could match the template of branch b, which came to w with none given: only what binds may differ.
pub fn suits(el: &[Word], b: Word, w: Tuple, g: Tuple) -> bool
    ensures { result ≡ suited el.now b w g }
{
    w.length == g.length && (0..w.length).all(|j| item_suits(el, b, w, g, j))
}

fn bind_one(el: &[Word], b: Word, g: Tuple, j: Word, h: &mut [Word])
    ensures { h.new ≡ bind_one el.now b g j h.old }
{
    if does_bind(el, b, j) {
        let x = item_at(el, b, j);
        put_field(h, word(x, LEFT + OPERAND_NUMBER), value_of(g, j));
    }
}

// The binds of branch b's template.
pub fn bind(el: &[Word], b: Word, g: Tuple, h: &mut [Word])
    ensures { h.new ≡ bound el.now b g h.old }
{
    for j in 0..VALUES {
        bind_one(el, b, g, j, h);
    }
}
