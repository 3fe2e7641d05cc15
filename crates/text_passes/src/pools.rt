// The pools of a text, read by a pass.
ghost use Rattle.std.specs.Prelude.{◌≡◌, [], ◌∷◌, Ok};
ghost use Rattle.text_readers.specs.Reading.{◌then◌, sign, number};
ghost use Rattle.text_passes.specs.Model.{element_alone, elements_at, pool_word, opening, closing, inside_pool, pool_of_word, pool, starts_pool, pools_at};
ghost use Rattle.text_passes.specs.Passes.{kept_element, kept_all, summed, elements_placed, kept_pool, Passed};

use super::keep::{keep_element, keep_head};
use base_bytes::{piece, same};
use base_table::places::{ELEMENT_WORDS, LIMIT};
use base_words::counts::{ELEMENTS, INSTANCES, POOL_NUMBERS, POOLS};
use base_words::numbers::MISPLACED;
use base_words::{Word, word};
use text_bounds::too_many;
use text_elements::{element, starts_element};
use text_ends::NOTED_WORDS;
use text_lexer::{Form, token_at};
use text_readers::{Read, Refusal, number_in, sign_at};

// The two keywords of a pool.
const PLAIN: Word = 1;

const MULTIPLE: Word = 2;

// The words of a pool's head: its number, its limit.
const NUMBER: usize = 0;

const HEAD_WORDS: usize = 2;

// An element, whatever stood in its words.
fn element_alone(text: &[u8], at: usize, x: &mut [Word; ELEMENT_WORDS]) -> Read
    ensures { record { end = result; value = x.new } ≡ element_alone text.now at }
{
    element(text, at, x)
}

// The elements of pool i, kept in w.
fn elements_at(fills: bool, text: &[u8], start: usize, i: u8, w: &mut [Word]) -> Read
    ensures { Passed (kept_all (kept_element fills i) 0) (elements_at text.now start) w.old result w.new }
{
    let mut x = [0; ELEMENT_WORDS];
    let mut at = start;
    for n in 0..ELEMENTS as u8 {
        let q = element_alone(text, at, &mut x)?;
        keep_element(fills, w, i, n, &x);
        let Ok(a) = sign_at(text, q, b'|') else {
            return Ok(q);
        };
        at = a;
    }
    too_many(text, at, starts_element(text, at))
}

// The elements of pool i: marked in its summary s, or stored in the table w.
fn elements_of(fills: bool, text: &[u8], at: usize, i: u8, s: &mut [Word], w: &mut [Word]) -> Read
    ensures passed { Passed (summed fills i) (elements_at text.now at) s.old result s.new }
    ensures passed_2 { Passed (elements_placed fills i) (elements_at text.now at) w.old result w.new }
{
    if fills {
        return elements_at(fills, text, at, i, w);
    }
    elements_at(fills, text, at, i, s)
}

// A number from 1 on between two signs, stored at a place of h.
fn number_between(
    text: &[u8],
    at: usize,
    h: &mut [Word],
    first: u8,
    most: Word,
    place: u32,
    last: u8,
) -> Read
    ensures { record { end = result; words = h.new } ≡ (sign first then number 1 most place then sign last) text.now at h.old }
{
    let p = sign_at(text, at, first)?;
    let q = number_in(text, p, h, 1, most, place)?;
    sign_at(text, q, last)
}

fn opening(text: &[u8], at: usize, h: &mut [Word]) -> Read
    ensures { record { end = result; words = h.new } ≡ opening text.now at h.old }
{
    number_between(text, at, h, b'(', POOL_NUMBERS, NUMBER as u32, b',')
}

fn closing(text: &[u8], at: usize, h: &mut [Word], k: Word) -> Read
    ensures { record { end = result; words = h.new } ≡ closing k text.now at h.old }
{
    if k == PLAIN {
        return sign_at(text, at, b')');
    }
    number_between(text, at, h, b',', INSTANCES, LIMIT as u32, b')')
}

// Pool i behind its opening, whose words are h.
fn pool_inside(
    fills: bool,
    text: &[u8],
    at: usize,
    k: Word,
    i: u8,
    h: &mut [Word],
    w: &mut [Word],
) -> Read
    ensures { Passed (kept_pool fills i) (inside_pool k text.now (record { end = Ok at; words = h.old })) w.old result w.new }
{
    let mut s = [0; NOTED_WORDS];
    let q = elements_of(fills, text, at, i, &mut s, w)?;
    let end = closing(text, q, h, k)?;
    keep_head(fills, w, i, word(h, NUMBER), word(h, LIMIT), &s);
    Ok(end)
}

// Pool i behind its keyword.
fn pool_of(fills: bool, text: &[u8], at: usize, k: Word, i: u8, w: &mut [Word]) -> Read
    ensures { Passed (kept_pool fills i) (inside_pool k text.now (opening text.now at (0 ∷ 0 ∷ []))) w.old result w.new }
{
    let mut h = [0; HEAD_WORDS];
    let q = opening(text, at, &mut h)?;
    pool_inside(fills, text, q, k, i, &mut h, w)
}

fn pool_named(word: &[u8]) -> Word
    ensures { result ≡ pool_word word.now }
{
    if same(word, b"pool") {
        return PLAIN;
    }
    if same(word, b"miPool") {
        return MULTIPLE;
    }
    0
}

// Pool i, kept in w.
fn pool_at(fills: bool, text: &[u8], at: usize, i: u8, w: &mut [Word]) -> Read
    ensures { Passed (kept_pool fills i) (pool text.now at) w.old result w.new }
{
    let token = token_at(text, at);
    let p = token.at;
    let q = token.next;
    let form = token.form;
    let Form::Word = form else {
        return Err(Refusal {
            number: MISPLACED,
            place: p,
        });
    };
    let k = pool_named(piece(text, p, q));
    if k == 0 {
        return Err(Refusal {
            number: MISPLACED,
            place: p,
        });
    }
    pool_of(fills, text, q, k, i, w)
}

// Whether a pool can start at a place of the text: one of its keywords stands there.
fn starts_pool(text: &[u8], at: usize) -> bool
    ensures { result ≡ starts_pool text.now at }
{
    let token = token_at(text, at);
    let p = token.at;
    let q = token.next;
    let form = token.form;
    let Form::Word = form else {
        return false;
    };
    pool_named(piece(text, p, q)) != 0
}

// The pools of a text, kept in w.
pub fn pools_at(fills: bool, text: &[u8], start: usize, w: &mut [Word]) -> Read
    ensures { Passed (kept_all (kept_pool fills) 0) (pools_at text.now start) w.old result w.new }
{
    let mut at = start;
    for i in 0..POOLS as u8 {
        let q = pool_at(fills, text, at, i, w)?;
        let Ok(a) = sign_at(text, q, b'|') else {
            return Ok(q);
        };
        at = a;
    }
    too_many(text, at, starts_pool(text, at))
}
