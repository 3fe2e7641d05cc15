// Things that are not read into, and the maximum of a participant's instances.
ghost use Rattle.std.specs.Prelude.{◌≡◌};
ghost use Rattle.draw_walk.specs.Walk.{is_number, judged, multiplicity, is_passed, passed};

use base_bytes::piece;
use draw_things::things::{CONDITION_EXPRESSION, Note, PARTICIPANT_MULTIPLICITY, STRANGER};
use text_numerals::{Number, number_of};
use xml_markup::scanning::markup;
use xml_markup::spans::attribute;
use xml_skip::{Fault, skip};

fn is_number(n: Number) -> bool
    ensures { result ≡ is_number n }
{
    match n {
        Number::Value(v) => true,
        Number::TooLarge => true,
        Number::NotANumber => false,
    }
}

// A maximum between two places of the tag at p.
fn judged(text: &[u8], p: usize, from: usize, to: usize) -> Result<usize, Fault>
    ensures { result ≡ judged text.now p from to }
{
    if is_number(number_of(piece(text, from, to))) {
        return skip(text, p);
    }
    let m = markup(text, p);
    if m.next <= to {
        return skip(text, p);
    }
    Err(Fault { place: from })
}

fn multiplicity(text: &[u8], p: usize) -> Result<usize, Fault>
    ensures { result ≡ multiplicity text.now p }
{
    let a = attribute(text, p, b"maximum");
    match a {
        Some((from, to)) => judged(text, p, from, to),
        None => skip(text, p),
    }
}

// Whether a thing of a sort is skipped whole.
#[tactic(auto, using(base_words::proofs::PickLaws::picks), unfolding(crate::specs::Walk::is_passed))]
pub fn is_passed(s: Note) -> bool
    ensures { result ≡ is_passed s }
{
    s == PARTICIPANT_MULTIPLICITY || (CONDITION_EXPRESSION <= s && s <= STRANGER)
}

// Skips a thing of a sort whole.
pub fn pass(s: Note, text: &[u8], p: usize) -> Result<usize, Fault>
    ensures { result ≡ passed s text.now p }
{
    if s == PARTICIPANT_MULTIPLICITY {
        return multiplicity(text, p);
    }
    skip(text, p)
}
