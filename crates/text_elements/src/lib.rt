// An element of a text, read into its words of a table: the keyword of its kind, and its parts by the table of kinds.
#![tactic(auto)]

ghost use Rattle.std.specs.Prelude.{◌≡◌, length, replicate};
ghost use Rattle.base_kinds.specs.Kinds.{keyword_of};
ghost use Rattle.base_bytes.specs.Bytes.{same_bytes};
ghost use Rattle.text_readers.specs.Reading.{sign, ◌then◌};
ghost use Rattle.text_parts.specs.Parts.{part_of};
ghost use Rattle.text_elements.specs.Elements.{kind_named, blank, parts_from, parts_of, element_of, element, starts_element};

use base_bytes::{piece, same};
use base_kinds::{keyword_of, letters_of};
use base_table::places::KIND;
use base_words::numbers::MISPLACED;
use base_words::{Word, clear, put, wide};
use text_lexer::{Form, token_at};
use text_parts::part_of;
use text_readers::{Read, Refusal, sign_at};

// How many kinds there are.
const KINDS: Word = 15;

// Whether a word is the keyword of kind k; most are told apart by their length.
fn is_keyword(word: &[u8], k: Word) -> bool
    ensures { result ≡ same_bytes word.now (keyword_of k) }
{
    let letters = wide(letters_of(k));
    if word.len() != letters {
        return false;
    }
    let keyword = keyword_of(k);
    same(word, piece(&keyword, 0, letters))
}

// The kind whose keyword a word is; 0 where there is none.
pub fn kind_named(word: &[u8]) -> Word
    ensures { result ≡ kind_named word.now }
{
    for j in 0..KINDS {
        if is_keyword(word, j + 1) {
            return j + 1;
        }
    }
    0
}

// An element of kind k, and nothing else.
fn blank(x: &mut [Word], k: Word)
    ensures { x.new ≡ blank k x.old }
{
    clear(x);
    put(x, KIND, k);
}

// A sign, and the part with a code.
fn part_behind(text: &[u8], at: usize, x: &mut [Word], s: u8, c: u8) -> Read
    ensures { record { end = result; words = x.new } ≡ (sign s then part_of c) text.now at x.old }
{
    let q = sign_at(text, at, s)?;
    part_of(text, q, x, c)
}

// The parts with these codes behind a sign, with commas between them; a blank stands behind the last.
fn parts_from(text: &[u8], start: usize, x: &mut [Word], first: u8, codes: &[u8]) -> Read
    ensures { record { end = result; words = x.new } ≡ parts_from first codes.now text.now start x.old }
{
    let mut at = start;
    let mut s = first;
    for &c in codes {
        if c == b' ' {
            return Ok(at);
        }
        at = part_behind(text, at, x, s, c)?;
        s = b',';
    }
    Ok(at)
}

// The parts of an element of kind k, in parentheses.
fn parts_of(text: &[u8], at: usize, x: &mut [Word], k: Word) -> Read
    ensures { record { end = result; words = x.new } ≡ parts_of k text.now at x.old }
{
    let codes = base_kinds::parts_of(k);
    let q = parts_from(text, at, x, b'(', &codes)?;
    sign_at(text, q, b')')
}

// The element of kind k whose keyword stands at p, its parts from q on.
fn element_of(text: &[u8], k: Word, p: usize, q: usize, x: &mut [Word]) -> Read
    ensures { record { end = result; words = x.new } ≡ element_of k p text.now q x.old }
{
    blank(x, k);
    if k == 0 {
        return Err(Refusal {
            number: MISPLACED,
            place: p,
        });
    }
    parts_of(text, q, x, k)
}

// The element at a place of the text, whatever stood in x.
pub fn element(text: &[u8], at: usize, x: &mut [Word]) -> Read
    ensures { record { end = result; words = x.new } ≡ element text.now at x.old }
{
    let token = token_at(text, at);
    let p = token.at;
    let q = token.next;
    let form = token.form;
    let Form::Word = form else {
        blank(x, 0);
        return Err(Refusal {
            number: MISPLACED,
            place: p,
        });
    };
    element_of(text, kind_named(piece(text, p, q)), p, q, x)
}

// Whether an element can start at a place of the text: one of the keywords stands there.
pub fn starts_element(text: &[u8], at: usize) -> bool
    ensures { result ≡ starts_element text.now at }
{
    let token = token_at(text, at);
    let p = token.at;
    let q = token.next;
    let form = token.form;
    let Form::Word = form else {
        return false;
    };
    kind_named(piece(text, p, q)) != 0
}
