// A log written as it happens: what stands before the events, the event of a step, the event of a post, what stands behind them; each into a lent buffer, whole or not at all.
#![tactic(auto)]

ghost use Rattle.std.specs.Prelude.{◌≡◌};
ghost use Rattle.write_buffer.specs.Buffers.{Put};
ghost use Rattle.write_lines.specs.Lines.{step_line};
ghost use Rattle.log_write.specs.Xes.{header, event_text, footer};
ghost use Rattle.log_pieces.specs.Pieces.{post_line, post_most, post_event_most, piece_in};

use base_words::Word;
use base_words::numbers::{ACCEPTED, TOO_SHORT};
use log_write::{put_closing, put_event, put_footer, put_header};
use meaning::{Answer, Name, Tuple};
use write_buffer::{put_byte, put_bytes};
use write_decimals::put_number;
use write_lines::put_values;

// The answer of a writing: a number, and beside 0 the length of the piece.
#[repr(C)]
#[derive(Clone, Copy)]
pub struct Piece {
    pub number: Word,
    pub length: usize,
}

fn no_room() -> Piece
    ensures { result ≡ record { number = 5; length = 0 } }
{
    Piece {
        number: TOO_SHORT,
        length: 0,
    }
}

// The line of a post.
fn put_post_line(out: &mut [u8], from: usize, name: Word, g: Tuple) -> usize
    ensures { Put (post_line name g) post_most from out.old result out.new }
{
    let post = put_bytes(out, from, b"post ");
    let number = put_number(out, post, name);
    let colon = put_byte(out, number, b':');
    put_values(out, colon, g)
}

// The event of a post: its name is the post's line.
fn put_post(out: &mut [u8], from: usize, name: Word, g: Tuple, moment: u64) -> usize
    ensures { Put (event_text moment (post_line name g)) post_event_most from out.old result out.new }
{
    let opening = put_bytes(out, from, b"<event><string key=\"concept:name\" value=\"");
    let line = put_post_line(out, opening, name, g);
    put_closing(out, line, moment)
}

// What stands before the events. Each piece is measured first, by writing it into a buffer of one byte.
pub fn begin(out: &mut [u8]) -> Piece
    ensures { record { number = result.number; length = result.length; buffer = out.new } ≡ piece_in header out.old }
{
    let mut none = [0u8; 1];
    let n = put_header(&mut none, 0);
    if out.len() < n {
        return no_room();
    }
    let end = put_header(out, 0);
    Piece {
        number: ACCEPTED,
        length: end,
    }
}

// The event of a step, with what it answered and when it was.
pub fn step(n: Name, a: Answer, moment: u64, out: &mut [u8]) -> Piece
    ensures { record { number = result.number; length = result.length; buffer = out.new } ≡ piece_in (event_text moment (step_line n a)) out.old }
{
    let mut none = [0u8; 1];
    let size = put_event(&mut none, 0, n, a, moment);
    if out.len() < size {
        return no_room();
    }
    let end = put_event(out, 0, n, a, moment);
    Piece {
        number: ACCEPTED,
        length: end,
    }
}

// The event of a post, and when it was.
pub fn post(name: Word, g: Tuple, moment: u64, out: &mut [u8]) -> Piece
    ensures { record { number = result.number; length = result.length; buffer = out.new } ≡ piece_in (event_text moment (post_line name g)) out.old }
{
    let mut none = [0u8; 1];
    let size = put_post(&mut none, 0, name, g, moment);
    if out.len() < size {
        return no_room();
    }
    let end = put_post(out, 0, name, g, moment);
    Piece {
        number: ACCEPTED,
        length: end,
    }
}

// What stands behind the events.
pub fn end(out: &mut [u8]) -> Piece
    ensures { record { number = result.number; length = result.length; buffer = out.new } ≡ piece_in footer out.old }
{
    let mut none = [0u8; 1];
    let n = put_footer(&mut none, 0);
    if out.len() < n {
        return no_room();
    }
    let end = put_footer(out, 0);
    Piece {
        number: ACCEPTED,
        length: end,
    }
}
