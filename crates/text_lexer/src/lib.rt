// The tokens of a text, each at or after a given place.
#![tactic(auto)]

ghost use Rattle.std.specs.Prelude.{◌≡◌, drop};
ghost use Rattle.base_words.specs.Words.{at};
ghost use Rattle.text_lexer.specs.Lexer.{is_blank, is_word, is_sign, placed, token_here, token_at, sign_behind};
ghost use Rattle.base_bytes.specs.Bytes.{between, past};

use base_bytes::{between, byte, is_digit, is_letter};

// What a token is: a word, a sign by its byte (`:` too), `:=`, the end of the text, or a byte that starts no token.
#[derive(Clone, Copy)]
pub enum Form {
    Word,
    Sign(u8),
    Assign,
    End,
    Other,
}

// A token's form, the place of its first byte and the place behind it.
#[derive(Clone, Copy)]
pub struct Token {
    pub form: Form,
    pub at: usize,
    pub next: usize,
}

fn placed(form: Form, at: usize, next: usize) -> Token
    ensures { result ≡ placed form at next }
{
    Token { form, at, next }
}

fn is_blank(b: u8) -> bool
    ensures { result ≡ is_blank b }
{
    if b == b' ' {
        return true;
    }
    b == b'\t' || b == b'\n'
}

// Most bytes of words are digits, so they are looked for first.
fn is_word(b: u8) -> bool
    ensures { result ≡ is_word b }
{
    if is_digit(b) {
        return true;
    }
    is_letter(b) || b == b'_'
}

// The signs stand together in ASCII as `()`, `+,-`, `<=>?` and `{|}`.
fn is_sign(b: u8) -> bool
    ensures { result ≡ is_sign b }
{
    if between(b'(', b')', b) {
        return true;
    }
    if between(b'+', b'-', b) {
        return true;
    }
    between(b'<', b'?', b) || between(b'{', b'}', b)
}

// The place of the first byte from `from` on that is not blank, or of the end.
pub fn past_blanks(text: &[u8], from: usize) -> usize
    ensures { result ≡ past is_blank (drop from text.now) from }
{
    for i in from..text.len() {
        if !is_blank(text[i]) {
            return i;
        }
    }
    from.max(text.len())
}

// The place of the first byte from `from` on that is not of a word, or of the end.
pub fn past_word(text: &[u8], from: usize) -> usize
    ensures { result ≡ past is_word (drop from text.now) from }
{
    for i in from..text.len() {
        if !is_word(text[i]) {
            return i;
        }
    }
    from.max(text.len())
}

// The token that begins at a place, no blank first.
fn token_here(text: &[u8], i: usize) -> Token
    ensures { result ≡ token_here (drop i text.now) i }
{
    if text.len() <= i {
        return placed(Form::End, i, i);
    }
    let b = text[i];
    if is_word(b) {
        return placed(Form::Word, i, past_word(text, i + 1));
    }
    if is_sign(b) {
        return placed(Form::Sign(b), i, i + 1);
    }
    if b != b':' {
        return placed(Form::Other, i, i + 1);
    }
    if byte(text, i + 1) == b'=' {
        return placed(Form::Assign, i, i + 2);
    }
    placed(Form::Sign(b), i, i + 1)
}

// The next token at or after a place of the text.
pub fn token_at(text: &[u8], at: usize) -> Token
    ensures { result ≡ token_at text.now at }
{
    token_here(text, past_blanks(text, at))
}

// The place behind a given sign, where it is the token that begins at p; else p. It is told by its bytes, with no token made.
pub fn sign_behind(text: &[u8], p: usize, s: u8) -> usize
    ensures { result ≡ sign_behind s (drop p text.now) p }
{
    if text.len() <= p {
        return p;
    }
    if text[p] != s {
        return p;
    }
    if is_sign(s) {
        return p + 1;
    }
    if s != b':' {
        return p;
    }
    if byte(text, p + 1) == b'=' {
        return p;
    }
    p + 1
}
