// Words that are 0, and words within limits.
ghost use Rattle.std.specs.Prelude.{◌≡◌, ◌-◌, ◌*◌, drop, length};
ghost use Rattle.base_words.specs.Words.{at};
ghost use Rattle.check_limits.specs.Bits.{bits_of};
ghost use Rattle.check_limits.specs.Limits.{within, zeros};

use base_words::{Word, tail, word};

// Whether word i is from low to high.
pub fn is_within(x: &[Word], i: usize, low: Word, high: Word) -> bool
    ensures { result ≡ within low high (at x.now i) }
{
    let n = word(x, i);
    low <= n && n <= high
}

// The bits that words have between them: a loop with one way out, so that the compiler takes many words at a time.
fn bits_in(x: &[Word]) -> Word
    ensures { result ≡ bits_of (at x.now) (length x.now) }
{
    let mut bits: Word = 0;
    for w in x {
        bits |= *w;
    }
    bits
}

// Whether the first n words are 0.
pub fn zero_words(x: &[Word], n: usize) -> bool
    ensures { result ≡ zeros x.now n }
{
    bits_in(&x[..n.min(x.len())]) == 0
}

// n less k, and 0 where k is greater.
pub fn less(n: Word, k: usize) -> Word
    ensures { result ≡ n - k }
{
    (n as usize).saturating_sub(k) as Word
}

// Whether the words behind the first k of `most` things, each of `width` words, are 0.
pub fn zeros_behind(x: &[Word], width: Word, most: Word, k: Word) -> bool
    ensures { result ≡ zeros (drop (width * k) x.now) (width * (most - k)) }
{
    let rest = less(most, k as usize);
    zero_words(
        tail(x, (width as usize) * (k as usize)),
        (width as usize) * (rest as usize),
    )
}
