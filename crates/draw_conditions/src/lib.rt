// The condition that an element of a drawing says.
#![tactic(auto)]

ghost use Rattle.std.specs.Prelude.{◌≡◌};
ghost use Rattle.draw_conditions.specs.Saying.{said};
ghost use Rattle.draw_conditions.specs.Conditions.{bare, alone, leftmost, both, form_of, second, joined, compared, condition_of, condition_at};

use base_table::places::{ALWAYS, BELOW, DEFAULT, EQUALS};
use base_words::Word;
use outline::outline;
use saying::{Spot, look};
use spelled::{Class, Side, behind, is_over, side_at, spells};
use xml_markup::Scan;
use xml_scanner::Sort;

pub mod outline;
pub mod saying;
pub mod spelled;

// An operand as a table has it: 0 and a number, or 1 and a field.
#[derive(Clone, Copy)]
pub struct Term {
    pub flag: Word,
    pub number: Word,
}

// A condition's form and operands, and the place of the leftmost operand that is out of range; 0 where none is. An operand out of range is the number 0.
#[derive(Clone, Copy)]
pub struct Condition {
    pub form: Word,
    pub left: Term,
    pub right: Term,
    pub beyond: usize,
}

// Forms beside those of a table: no condition; not in our notation.
pub const ABSENT: Word = 0;

pub const FOREIGN: Word = 5;

fn bare(form: Word) -> Condition
    ensures { result ≡ bare form }
{
    Condition {
        form,
        left: Term { flag: 0, number: 0 },
        right: Term { flag: 0, number: 0 },
        beyond: 0,
    }
}

#[tactic(auto, using(base_words::proofs::PickLaws::picks), unfolding(crate::specs::Conditions::alone))]
fn alone(text: &[u8], s: Spot, form: Word) -> Condition
    ensures { result ≡ alone form (said text.now s) }
{
    let e = behind(text, behind(text, s, Class::Word), Class::Blanks);
    if is_over(text, e) {
        return bare(form);
    }
    bare(FOREIGN)
}

#[tactic(auto, using(base_words::proofs::PickLaws::picks), unfolding(crate::specs::Conditions::leftmost))]
fn leftmost(a: usize, b: usize) -> usize
    ensures { result ≡ leftmost a b }
{
    if a == 0 { b } else { a }
}

#[tactic(auto, using(base_words::proofs::PickLaws::picks), unfolding(crate::specs::Conditions::both))]
fn both(form: Word, l: Side, r: Side) -> Condition
    ensures { result ≡ both form l r }
{
    if !l.stands {
        return bare(FOREIGN);
    }
    if !r.stands {
        return bare(FOREIGN);
    }
    let x = l.term;
    let y = r.term;
    let place = leftmost(l.beyond, r.beyond);
    Condition {
        form,
        left: x,
        right: y,
        beyond: place,
    }
}

#[tactic(auto, using(base_words::proofs::PickLaws::picks), unfolding(crate::specs::Conditions::form_of))]
fn form_of(b: u8) -> Word
    ensures { result ≡ form_of b }
{
    if b == b'=' {
        return EQUALS;
    }
    if b == b'<' {
        return BELOW;
    }
    FOREIGN
}

#[tactic(auto, using(base_words::proofs::PickLaws::picks), unfolding(crate::specs::Conditions::second))]
fn second(text: &[u8], s: Spot, form: Word, l: Side) -> Condition
    ensures { result ≡ second form l (said text.now s) }
{
    let e = behind(text, behind(text, s, Class::Word), Class::Blanks);
    if is_over(text, e) {
        return both(form, l, side_at(text, s));
    }
    bare(FOREIGN)
}

fn joined(text: &[u8], s: Spot, l: Side) -> Condition
    ensures { result ≡ joined l (said text.now s) }
{
    let Some(v) = look(text, s) else {
        return bare(FOREIGN);
    };
    let form = form_of(v.byte);
    if form == FOREIGN {
        return bare(FOREIGN);
    }
    second(text, behind(text, v.next, Class::Blanks), form, l)
}

#[tactic(auto, unfolding(crate::specs::Conditions::compared))]
fn compared(text: &[u8], s: Spot) -> Condition
    ensures { result ≡ compared (said text.now s) }
{
    let l = side_at(text, s);
    let e = behind(text, behind(text, s, Class::Word), Class::Blanks);
    joined(text, e, l)
}

#[tactic(auto, using(base_words::proofs::PickLaws::picks), unfolding(crate::specs::Conditions::condition_of))]
fn condition_of(text: &[u8], s: Spot) -> Condition
    ensures { result ≡ condition_of (said text.now s) }
{
    if is_over(text, s) {
        return bare(ABSENT);
    }
    if spells(text, s, b"true") {
        return alone(text, s, ALWAYS);
    }
    if spells(text, s, b"default") {
        return alone(text, s, DEFAULT);
    }
    compared(text, s)
}

// The condition of the element whose tag is at p.
pub fn condition_at(text: &[u8], p: usize) -> Condition
    ensures { result ≡ condition_at text.now p }
{
    let o = outline(text, p);
    let Scan::Past(sort, q) = o else {
        return bare(ABSENT);
    };
    let Sort::StartTag = sort else {
        return bare(ABSENT);
    };
    let s = Spot {
        section: false,
        deep: 0,
        at: q,
    };
    condition_of(text, behind(text, s, Class::Blanks))
}
