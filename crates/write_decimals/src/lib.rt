// The text of a number: decimal, without leading zeros.
#![tactic(auto)]

ghost use Rattle.std.specs.Prelude.{◌≡◌, ◌-◌, ◌^◌, length};
ghost use Rattle.base_words.specs.Words.{digits};
ghost use Rattle.write_buffer.specs.Buffers.{Put};
ghost use Rattle.write_decimals.specs.Decimals.{shown};

use base_words::Word;
use write_buffer::put_byte;

// What a number's first digit counts: a power of ten, with as many zeros as digits follow.
fn first_power(n: Word) -> Word
    ensures { result ≡ 10 ^ (length (shown n) - 1) }
{
    let mut left = n;
    let mut power: Word = 1;
    // Stays a while: it goes on until one digit is left, over no range.
    while left >= 10 {
        left /= 10;
        power *= 10;
    }
    power
}

// A number from a place on, as far as the buffer goes, and the place behind it. Each digit is made where it stands: the power goes down by itself, since a
// table of powers would be built on the stack.
pub fn put_number(out: &mut [u8], from: usize, n: Word) -> usize
    ensures { Put (shown n) digits from out.old result out.new }
{
    let mut to = from;
    let mut power = first_power(n);
    // Stays a while: it goes on until no digit is left; over the digits' places it would take a power for each.
    while power > 0 {
        to = put_byte(out, to, b'0' + (n / power % 10) as u8);
        power /= 10;
    }
    to
}
