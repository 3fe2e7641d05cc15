// The console: a session on standard input, a command a line, that drives every call of the engine, on models and on tables and states given word by
// word; answers go to standard output.
//
// The commands and their answers stand in docs/CONSOLE.md, which `bin/console --help` prints. A line that is empty or starts with `#` answers nothing.
// A command other than read, draw, clear, table, repair and diagnose before one of the first four made a table: no model. Any other line: bad line.
#![tactic(auto)]

use base_bytes::piece;
use base_state::places::STATE_WORDS;
use base_table::places::TABLE_WORDS;
use base_words::Word;
use state_figures::RECORD_WORDS;
use tool_print::{argument, read_part, tell};

mod arguments;
mod batch;
mod blocks;
mod commands;
mod desk;
mod lines;
mod output;
mod report;

use commands::do_line;
use desk::{Held, KEPT};
use output::bad_line;

const NEWLINE: u8 = 10;

// The bytes of the longest line.
const LINE: usize = 80000;

// The argument that is said whenever a line is waited for; a terminal gets one.
const PROMPT: usize = 1;

// The bytes of the longest prompt.
const PROMPT_MOST: usize = 16;

// The most bytes of a read.
const PIECE: usize = 4096;

// How much of a line there is so far, and whether more came than fits; and what there is to work on.
#[derive(Clone, Copy)]
struct Session {
    length: usize,
    excess: bool,
    held: Held,
}

// No part of a line was read.
fn emptied(held: Held) -> Session {
    Session {
        length: 0,
        excess: false,
        held,
    }
}

// Whether a line is a remark, which answers nothing.
fn is_remark(line: &[u8]) -> bool {
    line.is_empty() || line.starts_with(b"#")
}

// The line is complete.
fn complete(
    rt: &impl Print,
    s: Session,
    line: &[u8; LINE],
    t: &mut [Word; TABLE_WORDS],
    z: &mut [Word; STATE_WORDS],
    rs: &mut [[Word; RECORD_WORDS]; KEPT],
) -> Session {
    let text = piece(line, 0, s.length);
    if is_remark(text) {
        return emptied(s.held);
    }
    if s.excess {
        bad_line(rt);
        return emptied(s.held);
    }
    emptied(do_line(rt, text, s.held, t, z, rs))
}

// One byte more in the line.
fn extend(s: Session, line: &mut [u8; LINE], b: u8) -> Session {
    let n = s.length;
    if n < LINE {
        line[n] = b;
        return Session { length: n + 1, ..s };
    }
    Session { excess: true, ..s }
}

fn take_piece(
    rt: &impl Print,
    first: Session,
    piece: &[u8],
    line: &mut [u8; LINE],
    t: &mut [Word; TABLE_WORDS],
    z: &mut [Word; STATE_WORDS],
    rs: &mut [[Word; RECORD_WORDS]; KEPT],
) -> Session {
    let mut s = first;
    for b in piece {
        s = match *b {
            NEWLINE => complete(rt, s, line, t, z, rs),
            other => extend(s, line, other),
        };
    }
    s
}

// Reads what is there, and does what came: a line is answered before the next one is waited for. None at the input's end.
fn read_some(
    rt: &(impl Print + Input),
    s: Session,
    prompt: &[u8],
    line: &mut [u8; LINE],
    t: &mut [Word; TABLE_WORDS],
    z: &mut [Word; STATE_WORDS],
    rs: &mut [[Word; RECORD_WORDS]; KEPT],
) -> Option<Session> {
    let mut piece = [0u8; PIECE];
    let n = read_part(rt, &mut piece);
    if n == 0 {
        return None;
    }
    let next = take_piece(rt, s, &piece[..n], line, t, z, rs);
    // The prompt is said where no part of a line was read yet.
    if next.length == 0 {
        tell(rt, prompt);
    }
    Some(next)
}

fn talk(rt: &(impl Print + Input), prompt: &[u8]) {
    let mut t: [Word; TABLE_WORDS] = [0; TABLE_WORDS];
    let mut z: [Word; STATE_WORDS] = [0; STATE_WORDS];
    let mut rs: [[Word; RECORD_WORDS]; KEPT] = [[0; RECORD_WORDS]; KEPT];
    let mut line: [u8; LINE] = [0; LINE];
    let mut s = emptied(None);
    // A proved loop has to end, and nothing says that an input does: the turns are more than any run uses up.
    for _ in 0..u64::MAX {
        let Some(next) = read_some(rt, s, prompt, &mut line, &mut t, &mut z, &mut rs) else {
            break;
        };
        s = next;
    }
    // A last line without newline counts.
    if s.length > 0 {
        complete(rt, s, &line, &mut t, &mut z, &mut rs);
    }
}

fn main(rt: HostRuntime) {
    let mut prompt = [0u8; PROMPT_MOST];
    let n = argument(&rt, PROMPT, &mut prompt);
    talk(&rt, piece(&prompt, 0, n));
}
