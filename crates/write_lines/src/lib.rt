// The line of a step, as it is printed and as it is logged. Each writer writes from a place on, as far as the lent buffer goes, and returns the place
// behind its text.
#![tactic(auto)]

ghost use Rattle.std.specs.Prelude.{[], ◌∷◌, ◌++◌, ◌+◌};
ghost use Rattle.base_words.specs.Words.{greatest, digits};
ghost use Rattle.write_buffer.specs.Buffers.{Put, lesser};
ghost use Rattle.write_decimals.specs.Decimals.{shown};
ghost use Rattle.write_lines.specs.Lines.{marked_off, row, values_line, tuple_line, message_line, traffic_line, place_line, step_line, name_line, row_most, values_most, traffic_most, place_most, step_most, name_most, unread_line, unread_most};

use base_words::counts::VALUES;
use base_words::{DIGITS, GREATEST, Word, word};
use meaning::{Answer, Name, Traffic, Tuple};
use write_buffer::{put_byte, put_bytes};
use write_decimals::put_number;

// How many numbers stand before a step's traffic.
pub const PLACE_NUMBERS: usize = 5;

// The greatest lengths: of the values, of the traffic, of the place, of a step's line, of a name's line.
pub const VALUES_LINE: usize = (VALUES as usize) * (DIGITS + 1) - 1;

pub const TRAFFIC_LINE: usize = 1 + DIGITS + 1 + VALUES_LINE;

pub const PLACE_LINE: usize = PLACE_NUMBERS * (DIGITS + 1) - 1;

pub const STEP_LINE: usize = PLACE_LINE + 1 + TRAFFIC_LINE;

pub const NAME_LINE: usize = PLACE_LINE + 1 + VALUES_LINE;

// The j-th number of a row: a mark stands before each but the first.
fn put_marked(out: &mut [u8], from: usize, mark: u8, j: Word, x: Word) -> usize
    ensures { Put (marked_off (mark ∷ []) j x) (digits + 1) from out.old result out.new }
{
    if j == 0 {
        return put_number(out, from, x);
    }
    let first = put_byte(out, from, mark);
    put_number(out, first, x)
}

// The first n numbers of s, joined by a mark.
fn put_row(out: &mut [u8], from: usize, mark: u8, s: &[Word], n: Word) -> usize
    ensures { Put (row (mark ∷ []) s.now n) (row_most n) from out.old result out.new }
{
    let mut end = from;
    for j in 0..n {
        let x = word(s, j as usize);
        end = put_marked(out, end, mark, j, x);
    }
    end
}

// The values of a tuple, joined by commas; nothing for none.
pub fn put_values(out: &mut [u8], from: usize, g: Tuple) -> usize
    ensures { Put (values_line g) values_most from out.old result out.new }
{
    put_row(out, from, b',', &g.values, g.length.min(VALUES))
}

// A tuple by itself: `-` where it has no values.
pub fn put_tuple(out: &mut [u8], from: usize, g: Tuple) -> usize
    ensures { Put (tuple_line g) values_most from out.old result out.new }
{
    if g.length == 0 {
        return put_byte(out, from, b'-');
    }
    put_values(out, from, g)
}

// A message: its name, a colon and its values.
fn put_message(out: &mut [u8], from: usize, a: Answer) -> usize
    ensures { Put (message_line a) (digits + 1 + values_most) from out.old result out.new }
{
    let name = put_number(out, from, a.name);
    let colon = put_byte(out, name, b':');
    put_values(out, colon, a.tuple)
}

fn put_signed(out: &mut [u8], from: usize, sign: u8, a: Answer) -> usize
    ensures { Put ((sign ∷ []) ++ message_line a) traffic_most from out.old result out.new }
{
    let first = put_byte(out, from, sign);
    put_message(out, first, a)
}

// What a step consumed or sent: `?3:7`, `!3:7,9`, or `-`.
pub fn put_traffic(out: &mut [u8], from: usize, a: Answer) -> usize
    ensures { Put (traffic_line a) traffic_most from out.old result out.new }
{
    match a.traffic {
        Traffic::Nothing => put_byte(out, from, b'-'),
        Traffic::Consumed => put_signed(out, from, b'?', a),
        Traffic::Sent => put_signed(out, from, b'!', a),
    }
}

// Pool, instance, element, phase and branch, with a blank between.
pub fn put_place(out: &mut [u8], from: usize, n: Name) -> usize
    ensures { Put (place_line n) place_most from out.old result out.new }
{
    let numbers = [n.pool, n.instance, n.element, n.phase, n.branch];
    put_row(out, from, b' ', &numbers, PLACE_NUMBERS as Word)
}

// A step as it was taken: its place, and what it consumed or sent.
pub fn put_step(out: &mut [u8], from: usize, n: Name, a: Answer) -> usize
    ensures { Put (step_line n a) step_most from out.old result out.new }
{
    let place = put_place(out, from, n);
    let blank = put_byte(out, place, b' ');
    put_traffic(out, blank, a)
}

// A step as it is named: its place, and the values given.
pub fn put_name(out: &mut [u8], from: usize, n: Name) -> usize
    ensures { Put (name_line n) name_most from out.old result out.new }
{
    let place = put_place(out, from, n);
    let blank = put_byte(out, place, b' ');
    put_tuple(out, blank, n.given)
}

pub const UNREAD_LINE: usize = 8 + DIGITS + 1 + DIGITS + 1;

// What stands beside a number, as far as a word holds it.
pub fn put_beside(out: &mut [u8], from: usize, beside: usize) -> usize
    ensures { Put (shown (lesser beside greatest)) digits from out.old result out.new }
{
    put_number(out, from, beside.min(GREATEST as usize) as Word)
}

// A refused text: the number, and what stands beside it.
pub fn put_unread(out: &mut [u8], from: usize, number: Word, beside: usize) -> usize
    ensures { Put (unread_line number (lesser beside greatest)) unread_most from out.old result out.new }
{
    let word = put_bytes(out, from, b"refused ");
    let told = put_number(out, word, number);
    let blank = put_byte(out, told, b' ');
    let all = put_beside(out, blank, beside);
    put_byte(out, all, b'\n')
}
