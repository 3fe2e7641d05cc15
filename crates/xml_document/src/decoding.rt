// Character data, byte by byte, each with the place behind it.
#![tactic(auto, using(base_words::proofs::PickLaws::picks, std::proofs::lemmas::Bool::Decides::nat_tests), unfolding(crate::specs::Decoding::narrow, crate::specs::Decoding::behind_line, crate::specs::Decoding::plain_at, crate::specs::Decoding::referred_at, crate::specs::Decoding::decoded_at))]

ghost use Rattle.std.specs.Prelude.{◌≡◌, ◌-◌};
ghost use Rattle.xml_document.specs.Decoding.{narrow, behind_line, plain_at, referred_at, decoded_at};

use base_bytes::{byte, piece};
use xml_characters::references::character_of;
use xml_markup::scanning::markup;
use xml_markup::spans::after;

// A byte, and the place where the next one comes from.
#[derive(Clone, Copy)]
pub struct Decoded {
    pub byte: u8,
    pub next: usize,
}

fn narrow(n: u32) -> u8
    ensures { result ≡ narrow n }
{
    if n < 128 { n as u8 } else { 128 }
}

fn behind_line(text: &[u8], i: usize) -> usize
    ensures { result ≡ behind_line text.now i }
{
    if byte(text, i) == b'\n' {
        after(text, i)
    } else {
        i
    }
}

// A byte of a CDATA section: a line's end is one newline, as CR, LF or both write it.
pub fn plain_at(text: &[u8], i: usize) -> Decoded
    ensures { result ≡ plain_at text.now i }
{
    let byte = byte(text, i);
    let next = after(text, i);
    if byte == b'\r' {
        return Decoded {
            byte: b'\n',
            next: behind_line(text, next),
        };
    }
    Decoded { byte, next }
}

fn referred_at(text: &[u8], i: usize, q: usize) -> Decoded
    ensures { result ≡ referred_at text.now i q }
{
    let byte = narrow(character_of(piece(text, i, q.saturating_sub(1))));
    Decoded { byte, next: q }
}

// A byte of character data or of a value: a reference is the byte that it says.
pub fn decoded_at(text: &[u8], i: usize) -> Decoded
    ensures { result ≡ decoded_at text.now i }
{
    if byte(text, i) == b'&' {
        let m = markup(text, i);
        return referred_at(text, i, m.next);
    }
    plain_at(text, i)
}
