// Bytes of a text: at a place, from one place to another, their classes, and runs of them compared.
#![tactic(auto)]

ghost use Rattle.std.specs.Prelude.{◌≡◌};
ghost use Rattle.base_words.specs.Words.{at, part};
ghost use Rattle.base_bytes.specs.Bytes.{between, is_digit, is_letter, same_bytes};

// The byte at a place; outside the text 0.
pub fn byte(text: &[u8], i: usize) -> u8
    ensures { result ≡ at text.now i }
{
    text.get(i).copied().unwrap_or(0)
}

// The bytes from one place to another, as far as they stand in the text.
pub fn piece(text: &[u8], from: usize, to: usize) -> &[u8]
    ensures { result.now ≡ part text.now from to }
{
    let end = to.min(text.len());
    let start = from.min(end);
    &text[start..end]
}

#[tactic(auto, unfolding(crate::specs::Bytes::between))]
pub fn between(low: u8, high: u8, b: u8) -> bool
    ensures { result ≡ between low high b }
{
    low <= b && b <= high
}

#[tactic(auto, unfolding(crate::specs::Bytes::is_digit, crate::specs::Bytes::between))]
pub fn is_digit(b: u8) -> bool
    ensures { result ≡ is_digit b }
{
    matches!(b, b'0'..=b'9')
}

#[tactic(auto, unfolding(crate::specs::Bytes::is_letter, crate::specs::Bytes::between))]
pub fn is_letter(b: u8) -> bool
    ensures { result ≡ is_letter b }
{
    matches!(b, b'a'..=b'z' | b'A'..=b'Z')
}

// Whether two runs of bytes are the same. Most differ in their first bytes, so a call to compare them costs more than it saves.
pub fn same(a: &[u8], b: &[u8]) -> bool
    ensures { result ≡ same_bytes a.now b.now }
{
    a.len() == b.len() && (0..a.len()).all(|i| a[i] == b[i])
}
