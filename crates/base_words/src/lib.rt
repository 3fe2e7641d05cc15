// Words, and total access to them: outside a block a read is 0 and a write is none.
#![tactic(auto)]

ghost use Rattle.std.specs.Prelude.{◌≡◌, ◌-◌, length, set, drop, replicate};
ghost use Rattle.base_words.specs.Words.{at, one_more};

pub mod counts;
pub mod numbers;

// What tables and states are made of; a value is a word. Another width is a change of these three, and of their two in Words.antt.
pub type Word = u32;

// The greatest value of a word.
pub const GREATEST: Word = 4294967295;

// And its digits.
pub const DIGITS: usize = 10;

// One more; the greatest word stays.
pub fn one_more(n: Word) -> Word
    ensures { result ≡ one_more n }
{
    n.saturating_add(1)
}

pub fn word(s: &[Word], i: usize) -> Word
    ensures { result ≡ at s.now i }
{
    s.get(i).copied().unwrap_or(0)
}

pub fn put(s: &mut [Word], i: usize, v: Word)
    ensures { s.new ≡ set s.old i v }
{
    if i < s.len() {
        s[i] = v;
    }
}

// Every word 0.
pub fn clear(s: &mut [Word])
    ensures { s.new ≡ replicate (length s.old) 0 }
{
    s.fill(0);
}

// What stands from a place on.
pub fn tail(s: &[Word], i: usize) -> &[Word]
    ensures { result.now ≡ drop i s.now }
{
    s.get(i..).unwrap_or(&[])
}

// A word as a place or a count.
pub fn wide(x: Word) -> usize
    ensures { result ≡ x }
{
    x as usize
}

// One less, and 0 stays.
pub fn less_one(n: Word) -> Word
    ensures { result ≡ n - 1 }
{
    n.saturating_sub(1)
}
