// Assignments, in order.
ghost use Rattle.std.specs.Prelude.{◌≡◌, true, false};
ghost use Rattle.meaning.specs.Assignments.{Assigned, assigned_value, assign_one, assigned};

use super::expression;
use base_state::put_field;
use base_table::places::ASSIGNED;
use base_table::{assignment_at, assignment_count};
use base_words::counts::ASSIGNMENTS;
use base_words::{Word, tail, word};
use meaning::Value;

// Assigns a value that is defined, and says whether it was.
fn assign_value(h: &mut [Word], d: Word, x: Value) -> bool
    ensures { record { defined = result; instance = h.new } ≡ assigned_value h.old d x }
{
    let Some(v) = x else {
        return false;
    };
    put_field(h, d, v);
    true
}

// Assignment j where the ones before it were defined.
fn assign_one(el: &[Word], j: Word, defined: bool, h: &mut [Word]) -> bool
    ensures { record { defined = result; instance = h.new } ≡ assign_one el.now j (record { defined = defined; instance = h.old }) }
{
    if assignment_count(el) <= j {
        return defined;
    }
    if !defined {
        return false;
    }
    let a = assignment_at(el, j);
    let x = expression(tail(a, ASSIGNED), h);
    assign_value(h, word(a, 0), x)
}

// The element's assignments; whether all of them were defined.
pub fn assign(el: &[Word], h: &mut [Word]) -> bool
    ensures { record { defined = result; instance = h.new } ≡ assigned el.now h.old }
{
    let mut defined = true;
    for j in 0..ASSIGNMENTS {
        defined = assign_one(el, j, defined, h);
    }
    defined
}
