// What a log tells of a message: its events one after another, each a step or a post as the judge takes it, and how many posted it, sent it, consumed it.
#![tactic(auto)]

ghost use Rattle.std.specs.Prelude.{◌+◌, ◌<◌, ◌≤◌, ◌≡◌};
ghost use Rattle.write_buffer.specs.Buffers.{last_place};
ghost use Rattle.step_poll.specs.Poll.{settled_step, settled_post};
ghost use Rattle.step_history.specs.History.{entry_by, state_by, told_by, left_by, entry_noted};
ghost use Rattle.log_text.specs.Logs.{lines_from, lines_of};
ghost use Rattle.log_accounts.specs.Told.{act_of, acts_of, onward, nothing_told, and_noted, told_in, state_in};

use base_bytes::piece;
use base_state::places::STATE_WORDS;
use base_table::places::TABLE_WORDS;
use base_words::Word;
use log_judge::closes_event;
use log_lines::entry_of;
use log_text::{Cursor, Move, advance, start};
use meaning::Tuple;
use step_history::{Accounts, Moved, Noted, note_post, note_step, nothing_moved, queued_of};
use step_take::{post_on, step_on};

// Three of the numbers so far, how many events more are asked for, and what the last one moved.
#[derive(Clone, Copy)]
pub struct Telling {
    pub posted: usize,
    pub sent: usize,
    pub consumed: usize,
    pub room: usize,
    pub moved: Moved,
}

// The four numbers of a message in the first events of a log, how many events fewer there are than were asked for, and what the last one moved.
#[derive(Clone, Copy)]
pub struct Told {
    pub accounts: Accounts,
    pub room: usize,
    pub moved: Moved,
}

// Does what a line says.
fn note_line(
    t: &[Word; TABLE_WORDS],
    z: &mut [Word; STATE_WORDS],
    line: &[u8],
    m: Word,
    g: Tuple,
) -> Noted
    ensures { (result ≡ entry_noted m g (entry_by (settled_step t.now) settled_post (act_of line.now) z.old)) × (z.new ≡ state_by (settled_step t.now) settled_post (act_of line.now) z.old) × (result.posted ≤ 1) × (result.sent ≤ 1) × (result.consumed ≤ 1) }
{
    let e = entry_of(line);
    let n = e.name;
    if e.posts {
        let tuple = n.given;
        return note_post(m, g, n.pool, tuple, post_on(z, n.pool, tuple));
    }
    let a = step_on(t, z, n);
    note_step(m, g, n, a)
}

fn nothing_told(most: usize) -> Telling
    ensures { result ≡ nothing_told most }
{
    Telling {
        posted: 0,
        sent: 0,
        consumed: 0,
        room: most,
        moved: nothing_moved(),
    }
}

// With one event more.
fn and_noted(b: Telling, n: Noted) -> Telling
    requires { (b.posted + n.posted ≤ last_place) × (b.sent + n.sent ≤ last_place) × (b.consumed + n.consumed ≤ last_place) × (0 < b.room) }
    ensures { result ≡ and_noted b n }
{
    let moved = n.moved;
    Telling {
        posted: b.posted + n.posted,
        sent: b.sent + n.sent,
        consumed: b.consumed + n.consumed,
        room: b.room - 1,
        moved: moved,
    }
}

// The first events behind a place of a log.
fn tell_from(
    t: &[Word; TABLE_WORDS],
    z: &mut [Word; STATE_WORDS],
    text: &[u8],
    first: Cursor,
    most: usize,
    m: Word,
    g: Tuple,
) -> Telling
    ensures { (result ≡ onward m g (nothing_told most) (told_by (settled_step t.now) settled_post (acts_of (lines_from text.now first) most) z.old)) × (z.new ≡ left_by (settled_step t.now) settled_post (acts_of (lines_from text.now first) most) z.old) }
{
    let mut c = first;
    let mut b = nothing_told(most);
    for _step in 0..text.len() {
        let next = advance(text, c);
        let Move::On(d) = next else {
            return b;
        };
        let before = c.level;
        let behind = d.level;
        c = d;
        if !closes_event(before, behind) {
            continue;
        }
        if b.room == 0 {
            return b;
        }
        let one = note_line(t, z, piece(text, d.from, d.to), m, g);
        let more = and_noted(b, one);
        b = more;
    }
    b
}

// The first events of a log.
fn tell_lines(
    t: &[Word; TABLE_WORDS],
    z: &mut [Word; STATE_WORDS],
    text: &[u8],
    most: usize,
    m: Word,
    g: Tuple,
) -> Telling
    ensures { (result ≡ onward m g (nothing_told most) (told_by (settled_step t.now) settled_post (acts_of (lines_of text.now) most) z.old)) × (z.new ≡ left_by (settled_step t.now) settled_post (acts_of (lines_of text.now) most) z.old) }
{
    let first = start(text);
    let Move::On(c) = first else {
        return nothing_told(most);
    };
    tell_from(t, z, text, c, most, m, g)
}

// Goes through the first events of a log from a state on, which is the caller's to lend: what they tell of a message.
pub fn tell_on(
    t: &[Word; TABLE_WORDS],
    z: &mut [Word; STATE_WORDS],
    text: &[u8],
    most: usize,
    m: Word,
    g: Tuple,
) -> Told
    ensures { (result ≡ told_in (settled_step t.now) settled_post text.now most m g z.old) × (z.new ≡ state_in (settled_step t.now) settled_post text.now most z.old) }
{
    let s = tell_lines(t, z, text, most, m, g);
    let queued = queued_of(z, m, g);
    let moved = s.moved;
    Told {
        accounts: Accounts {
            posted: s.posted,
            sent: s.sent,
            consumed: s.consumed,
            queued: queued,
        },
        room: s.room,
        moved: moved,
    }
}
