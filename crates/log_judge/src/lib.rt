// Whether the run that a log tells was lawful: its events one after another, each a step or a post, and whether its line is true.
#![tactic(auto)]

ghost use Rattle.std.specs.Prelude.{◌≡◌};
ghost use Rattle.base_bytes.specs.Bytes.{same_bytes};
ghost use Rattle.write_lines.specs.Lines.{step_line};
ghost use Rattle.log_text.specs.Logs.{closes_event, lines_from, lines_of};
ghost use Rattle.step_poll.specs.Poll.{settled_step, settled_post};
ghost use Rattle.log_judge.specs.Judge.{left_by_lines, Taking, line_taken, judged_by, judged_from};

use base_bytes::{piece, same};
use base_state::places::STATE_WORDS;
use base_table::places::TABLE_WORDS;
use base_words::Word;
use base_words::numbers::{ACCEPTED, AT_FAULT, NOT_A_LOG};
use log_lines::entry_of;
use log_text::{Cursor, Level, Move, advance, scan, start};
use meaning::{Answer, Name};
use step_take::{post_on, step_on};
use write_lines::{STEP_LINE, put_step};

// A number; beside 23 the place, beside 24 the event's ordinal from 0 and the step's or post's own number, 0 where only its line is untrue.
#[repr(C)]
#[derive(Clone, Copy)]
pub struct Judged {
    pub number: Word,
    pub beside: usize,
    pub own: Word,
}

// What a line came to: the number that refuses it, or 0, and whether what it says was sent or consumed is true.
#[derive(Clone, Copy)]
pub struct Taken {
    pub number: Word,
    pub right: bool,
}

// Whether the line of a step as it was taken is this one.
fn same_line(n: Name, a: Answer, line: &[u8]) -> bool
    ensures { result ≡ same_bytes (step_line n a) line.now }
{
    let mut out = [0u8; STEP_LINE];
    let end = put_step(&mut out, 0, n, a);
    same(piece(&out, 0, end), line)
}

// Does what a line says.
fn take_line(t: &[Word; TABLE_WORDS], z: &mut [Word; STATE_WORDS], line: &[u8]) -> Taken
    ensures { record { number = result.number; right = result.right; state = z.new } ≡ line_taken (settled_step t.now) settled_post line.now z.old }
{
    let e = entry_of(line);
    let n = e.name;
    if e.posts {
        let g = n.given;
        return Taken {
            number: post_on(z, n.pool, g),
            right: true,
        };
    }
    let a = step_on(t, z, n);
    Taken {
        number: a.number,
        right: same_line(n, a, line),
    }
}

// Whether a move was out of an event, which is whole then.
#[tactic(auto, using(base_words::proofs::PickLaws::picks, std::proofs::lemmas::Bool::Decides::nat_tests), unfolding(log_text::specs::Logs::closes_event))]
pub fn closes_event(from: Level, to: Level) -> bool
    ensures { result ≡ closes_event from to }
{
    matches!(from, Level::Event) && matches!(to, Level::Trace)
}

// The events behind a place of a log, none of which was taken before.
fn judge_from(
    t: &[Word; TABLE_WORDS],
    z: &mut [Word; STATE_WORDS],
    text: &[u8],
    first: Cursor,
) -> Judged
    ensures { (result ≡ judged_by (line_taken (settled_step t.now) settled_post) (lines_from text.now first) 0 z.old) × (result.number ≡ 0 → z.new ≡ left_by_lines (line_taken (settled_step t.now) settled_post) (lines_from text.now first) z.old) }
{
    let mut c = first;
    let mut ordinal: usize = 0;
    for _step in 0..text.len() {
        let m = advance(text, c);
        let Move::On(d) = m else {
            return lawful();
        };
        let before = c.level;
        let behind = d.level;
        c = d;
        if !closes_event(before, behind) {
            continue;
        }
        let taken = take_line(t, z, piece(text, d.from, d.to));
        if taken.number != ACCEPTED {
            return at_fault(ordinal, taken.number);
        }
        if !taken.right {
            return at_fault(ordinal, 0);
        }
        ordinal += 1;
    }
    lawful()
}

fn lawful() -> Judged
    ensures { result ≡ record { number = 0; beside = 0; own = 0 } }
{
    Judged {
        number: ACCEPTED,
        beside: 0,
        own: 0,
    }
}

fn at_fault(ordinal: usize, own: Word) -> Judged
    ensures { result ≡ record { number = 24; beside = ordinal; own = own } }
{
    Judged {
        number: AT_FAULT,
        beside: ordinal,
        own,
    }
}

// The events of a log.
fn judge_lines(t: &[Word; TABLE_WORDS], z: &mut [Word; STATE_WORDS], text: &[u8]) -> Judged
    ensures { (result ≡ judged_by (line_taken (settled_step t.now) settled_post) (lines_of text.now) 0 z.old) × (result.number ≡ 0 → z.new ≡ left_by_lines (line_taken (settled_step t.now) settled_post) (lines_of text.now) z.old) }
{
    let m = start(text);
    let Move::On(c) = m else {
        return lawful();
    };
    judge_from(t, z, text, c)
}

// Judges a log from a state on, which is the caller's to lend: 23 with its place, 24 with the event at fault, and the state is as far as that; else 0, and the state is the one that its lines leave.
pub fn judge_on(t: &[Word; TABLE_WORDS], z: &mut [Word; STATE_WORDS], text: &[u8]) -> Judged
    ensures { (result ≡ judged_from (line_taken (settled_step t.now) settled_post) text.now z.old) × (result.number ≡ 0 → z.new ≡ left_by_lines (line_taken (settled_step t.now) settled_post) (lines_of text.now) z.old) }
{
    let s = scan(text);
    match s.end {
        Ok(_) => judge_lines(t, z, text),
        Err(f) => Judged {
            number: NOT_A_LOG,
            beside: f.place,
            own: 0,
        },
    }
}
