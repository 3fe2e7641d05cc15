// How many items a list of a text has: what can start one, one too many, too few of them.
#![tactic(auto)]

ghost use Rattle.std.specs.Prelude.{◌≡◌};
ghost use Rattle.text_readers.specs.Reading.{place_of};
ghost use Rattle.text_bounds.specs.Bounds.{starts_operand, starts, one_too_many, counted};

use base_words::numbers::{EXCESSIVE, MISPLACED};
use base_words::{Word, put};
use text_lexer::token_at;
use text_readers::{Read, Refusal, starts_field, starts_number, starts_sign};

pub const AN_EDGE: u8 = b'E';

pub const A_TEMPLATE_ITEM: u8 = b'T';

pub const A_MESSAGE_ITEM: u8 = b'S';

pub const AN_ASSIGNMENT: u8 = b'A';

pub const A_GUARDED_BRANCH: u8 = b'G';

// Whether the token at a place can start an expression.
fn starts_operand(text: &[u8], at: usize) -> bool
    ensures { result ≡ starts_operand text.now at }
{
    starts_field(text, at) || starts_number(text, at)
}

// Whether the token at a place can start an item.
pub fn starts(text: &[u8], at: usize, item: u8) -> bool
    ensures { result ≡ starts item text.now at }
{
    if item == AN_EDGE {
        return starts_number(text, at);
    }
    if item == A_TEMPLATE_ITEM {
        return starts_sign(text, at, b'?') || starts_operand(text, at);
    }
    if item == A_MESSAGE_ITEM {
        return starts_operand(text, at);
    }
    if item == AN_ASSIGNMENT {
        return starts_field(text, at);
    }
    starts_sign(text, at, b'(')
}

// The refusal of one item too many: only where the token there can start an item is it one.
pub fn too_many(text: &[u8], at: usize, item: bool) -> Read
    ensures { result ≡ one_too_many item (place_of text.now at) }
{
    let number = if item { EXCESSIVE } else { MISPLACED };
    Err(Refusal {
        number,
        place: token_at(text, at).at,
    })
}

// Stores the count of k items that were read.
pub fn counted(text: &[u8], at: usize, x: &mut [Word], least: Word, count: u32, k: Word) -> Read
    ensures { record { end = result; words = x.new } ≡ counted least count k text.now at x.old }
{
    if k < least {
        return Err(Refusal {
            number: MISPLACED,
            place: token_at(text, at).at,
        });
    }
    put(x, count as usize, k);
    Ok(at)
}
