// References and the characters that they say.
#![tactic(auto, using(base_words::proofs::PickLaws::picks, std::proofs::lemmas::Bool::Decides::nat_tests), unfolding(crate::specs::References::digit, crate::specs::References::base, crate::specs::References::more, crate::specs::References::numbered, crate::specs::References::character_of, crate::specs::References::is_character))]

ghost use Rattle.std.specs.Prelude.{◌≡◌};
ghost use Rattle.xml_characters.specs.References.{digit, base, more, number_from, numbered, character_of, is_character};

use super::is_blank;
use base_bytes::{byte, piece, same};

const GREATEST: u32 = 1114111;

fn digit(b: u8) -> u8
    ensures { result ≡ digit b }
{
    match b {
        b'0'..=b'9' => b - b'0',
        b'A'..=b'F' => b - b'A' + 10,
        b'a'..=b'f' => b - b'a' + 10,
        _ => 16,
    }
}

fn base(hex: bool) -> u8
    ensures { result ≡ base hex }
{
    if hex { 16 } else { 10 }
}

fn more(hex: bool, v: u32, d: u8) -> u32
    ensures { result ≡ more hex v d }
{
    if GREATEST < v {
        return v;
    }
    if hex {
        return v * 16 + d as u32;
    }
    v * 10 + d as u32
}

// The digits of a word, decimal or hexadecimal.
fn number(hex: bool, word: &[u8]) -> u32
    ensures { result ≡ number_from hex 0 word.now }
{
    let mut v: u32 = 0;
    for b in word {
        let d = digit(*b);
        if base(hex) <= d {
            return 0;
        }
        v = more(hex, v, d);
    }
    v
}

fn numbered(w: &[u8]) -> u32
    ensures { result ≡ numbered w.now }
{
    if byte(w, 1) != b'#' {
        return 0;
    }
    if byte(w, 2) == b'x' {
        return number(true, piece(w, 3, w.len()));
    }
    number(false, piece(w, 2, w.len()))
}

pub fn character_of(w: &[u8]) -> u32
    ensures { result ≡ character_of w.now }
{
    if same(w, b"&lt") {
        return b'<' as u32;
    }
    if same(w, b"&gt") {
        return b'>' as u32;
    }
    if same(w, b"&amp") {
        return b'&' as u32;
    }
    if same(w, b"&quot") {
        return b'"' as u32;
    }
    if same(w, b"&apos") {
        return b'\'' as u32;
    }
    numbered(w)
}

pub fn is_character(n: u32) -> bool
    ensures { result ≡ is_character n }
{
    match n {
        0..=31 => is_blank(n as u8),
        55296..=57343 => false,
        65534..=65535 => false,
        _ => n <= GREATEST,
    }
}
