// A line of the map: a word, numbers behind it, each after a blank, and a newline.
ghost use Rattle.draw_map.specs.Map.{Puts, next, numbers, line};

use base_words::Word;
use write_buffer::{put_byte, put_bytes};
use write_decimals::put_number;

fn put_next(out: &mut [u8], from: usize, x: Word) -> usize
    ensures { Puts (next x) from out.old result out.new }
{
    let blank = put_byte(out, from, b' ');
    put_number(out, blank, x)
}

fn put_numbers(out: &mut [u8], from: usize, xs: &[Word]) -> usize
    ensures { Puts (numbers xs.now) from out.old result out.new }
{
    let mut end = from;
    for x in xs {
        end = put_next(out, end, *x);
    }
    end
}

pub fn put_line(out: &mut [u8], from: usize, name: &[u8], xs: &[Word]) -> usize
    ensures { Puts (line name.now xs.now) from out.old result out.new }
{
    let first = put_bytes(out, from, name);
    let last = put_numbers(out, first, xs);
    put_byte(out, last, b'\n')
}
