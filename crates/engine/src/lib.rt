// The public calls. Each checks what it is lent, then calls the layer below.
#![tactic(auto)]

ghost use Rattle.std.specs.Prelude.{◌≡◌, true, leb, length};
ghost use Rattle.base_state.specs.Places.{state_words};
ghost use Rattle.base_state.specs.Instances.{instances_of};
ghost use Rattle.state_figures.specs.Figures.{counted, Figured};
ghost use Rattle.engine.specs.Engine.{valid, verdict_of, Left, version_number, asked_number, freshened, lent_number, Stepped, posted_to, listed_at, RanTo, WrittenTo, written_to};
ghost use Rattle.engine.specs.Calls.{judged_to};
ghost use Rattle.engine.specs.Desk.{AtDesk, records_number, stepped_at, ran_at, polled_at, figured_to};
ghost use Rattle.engine.specs.Profile.{nested_of};
ghost use Rattle.engine.specs.Replay.{left_to, Replayed, replayed_to, resumed_to};
ghost use Rattle.state_fits.specs.Fresh.{fresh};
ghost use Rattle.step_poll.specs.Poll.{Polling};
ghost use Rattle.step_names.specs.Names.{blank_name};
ghost use Rattle.text_read.specs.Notation.{read_into};
ghost use Rattle.draw_read.specs.Drawings.{draw_into};
ghost use Rattle.draw_diagnose.specs.Diagnosis.{diagnosed};
ghost use Rattle.write_buffer.specs.Buffers.{lesser, last_place};
ghost use Rattle.write_shown.specs.Shown.{shown_table};
ghost use Rattle.log_repair.specs.Repair.{Repair, repaired_to};

use base_state::places::STATE_WORDS;
use base_state::versions::{is_version, version_of};
use base_table::places::TABLE_WORDS;
use base_table::pool_count;
use base_words::Word;
use base_words::counts::TEXT_MOST;
use base_words::numbers::{ACCEPTED, BAD, CHECK_BROKEN, NOT_NESTED, OTHER_VERSION, TOO_SHORT};
use check_lowest::number_at;
use draw_diagnose::Diagnosis;
use log_judge::Judged;
use log_repair::Repaired;
use meaning::{Answer, Name, Tuple, empty_tuple};
use state_figures::RECORD_WORDS;
use step_effects::refuse;
use step_list::Listed;
use step_poll::{POLL_WORDS, Polled};
use step_run::Steps;
use text_read::Reading;

mod desk;

use desk::{figure_in, follow_in, number_in, recount_in};

// The answer of a check: a number, and beside 4 the lowest check broken, beside 29 the number of the pool.
#[repr(C)]
#[derive(Clone, Copy)]
pub struct Verdict {
    pub number: Word,
    pub beside: Word,
}

// Checks a lent table: 10 for a broken limit or an unused place not 0, then 4, else 0.
pub fn check(t: &[Word; TABLE_WORDS]) -> Verdict
    ensures { result ≡ verdict_of t.now }
{
    if !check_table::table_fits(t) {
        return Verdict {
            number: BAD,
            beside: 0,
        };
    }
    let broken = check_lowest::lowest_broken(t);
    if broken == 0 {
        return Verdict {
            number: ACCEPTED,
            beside: 0,
        };
    }
    Verdict {
        number: CHECK_BROKEN,
        beside: broken,
    }
}

fn is_valid(t: &[Word; TABLE_WORDS]) -> bool
    ensures { result ≡ valid t.now }
{
    if !check_table::table_fits(t) {
        return false;
    }
    check_lowest::lowest_broken(t) == 0
}

fn version_number(v: Word) -> Word
    ensures { result ≡ version_number v }
{
    if is_version(v) {
        return ACCEPTED;
    }
    OTHER_VERSION
}

// The number that a lent table and a version asked for are refused with, or 0.
fn asked_number(t: &[Word; TABLE_WORDS], v: Word) -> Word
    ensures { result ≡ asked_number t.now v }
{
    if !is_valid(t) {
        return BAD;
    }
    version_number(v)
}

// Makes a fresh state for version 10 or 20: 10 where the table is bad, 25 for another version, and the state stays; else 0.
pub fn fresh(t: &[Word; TABLE_WORDS], v: Word, z: &mut [Word; STATE_WORDS]) -> Word
    ensures { record { number = result; state = z.new } ≡ freshened t.now v z.old }
{
    let number = asked_number(t, v);
    if number != ACCEPTED {
        return number;
    }
    state_fresh::begin(t, v, z);
    ACCEPTED
}

// The number that a lent table and state are refused with, or 0.
fn lent_number(t: &[Word; TABLE_WORDS], z: &[Word; STATE_WORDS]) -> Word
    ensures { (result ≡ lent_number t.now z.now) × (result ≡ 0 → length z.now ≡ state_words) }
{
    if !is_valid(t) {
        return BAD;
    }
    if !state_check::state_fits(t, z) {
        return BAD;
    }
    version_number(version_of(z))
}

// The number that a lent table, a state and the desk's records are refused with, or 0.
fn records_number(
    t: &[Word; TABLE_WORDS],
    z: &[Word; STATE_WORDS],
    rs: &[[Word; RECORD_WORDS]],
) -> Word
    ensures { (result ≡ records_number t.now z.now rs.now) × (result ≡ 0 → length z.now ≡ state_words) × (result ≡ 0 → rs.now ≡ counted t.now (instances_of z.now)) }
{
    number_in(rs, t, z, lent_number(t, z))
}

// Takes a named step: 10 where the table or the state is bad, 25 for another version, 26 where the desk's records are not what a count over the state gives, 11 to 18 where it is refused, and state and records stay;
// else 0, and what was consumed or sent, and the record of its own pool follows.
pub fn step(
    t: &[Word; TABLE_WORDS],
    z: &mut [Word; STATE_WORDS],
    rs: &mut [[Word; RECORD_WORDS]],
    n: Name,
) -> Answer
    ensures { record { done = record { answer = result; state = z.new }; records = rs.new } ≡ stepped_at t.now z.old rs.old n }
{
    let number = records_number(t, z, rs);
    if number != ACCEPTED {
        return refuse(number);
    }
    let a = step_take::step_on(t, z, n);
    follow_in(rs, t, z, n.pool, n.instance, a.number);
    a
}

// Posts a message from outside: 10, 25, 19 or 17, and the state stays; else 0.
pub fn post(t: &[Word; TABLE_WORDS], z: &mut [Word; STATE_WORDS], name: Word, g: Tuple) -> Word
    ensures { record { number = result; state = z.new } ≡ posted_to t.now z.old name g }
{
    let number = lent_number(t, z);
    if number != ACCEPTED {
        return number;
    }
    step_take::post_on(z, name, g)
}

fn unlisted(number: Word) -> Listed
    ensures { result ≡ record { number = number; name = blank_name } }
{
    Listed {
        number: number,
        name: Name {
            pool: 0,
            instance: 0,
            element: 0,
            phase: 0,
            branch: 0,
            given: empty_tuple(),
        },
    }
}

// The k-th accepted step, k from 0: 10 where the table or the state is bad, 25 for another version, 6 where there is none with that ordinal; else 0 and its name.
pub fn list(t: &[Word; TABLE_WORDS], z: &[Word; STATE_WORDS], k: usize) -> Listed
    ensures { result ≡ listed_at t.now z.now k }
{
    let number = lent_number(t, z);
    if number != ACCEPTED {
        return unlisted(number);
    }
    step_list::list_on(t, z, k)
}

// The answer of a run: a number, the steps taken, 1 or 0 for whether one is still accepted.
#[repr(C)]
#[derive(Clone, Copy)]
pub struct Ran {
    pub number: Word,
    pub steps: Steps,
    pub left: Word,
}

// Takes the first listed step until none is accepted or the limit is used up: 10 where the table or the state is bad, 25 for another version, 26 where the desk's records are not what a count over the state gives, and
// state and records stay; else 0, and the records are those of the last state.
pub fn run(
    t: &[Word; TABLE_WORDS],
    z: &mut [Word; STATE_WORDS],
    rs: &mut [[Word; RECORD_WORDS]],
    limit: Steps,
) -> Ran
    ensures { record { done = record { number = result.number; steps = result.steps; left = result.left; state = z.new }; records = rs.new } ≡ ran_at t.now z.old rs.old limit }
{
    let number = records_number(t, z, rs);
    if number != ACCEPTED {
        return Ran {
            number: number,
            steps: 0,
            left: 0,
        };
    }
    let r = step_run::run_on(t, z, limit);
    recount_in(rs, t, z, number);
    Ran {
        number: ACCEPTED,
        steps: r.steps,
        left: r.left,
    }
}

// Reads a text into the lent table: 1, 2 or 3 with its place, 4 with the lowest check broken, 28 where an endSnd finds no edge or element number free, and the table stays; else 0, and every word of it is the model's.
pub fn read(text: &[u8], t: &mut [Word; TABLE_WORDS]) -> Reading
    ensures { record { number = result.number; beside = result.beside; table = t.new } ≡ read_into text.now t.old }
{
    text_read::read_into(text, t)
}

// Reads a drawing into the lent table: 1, 20 with its place, 21, 3 with its place, 4 with the lowest check broken, 28 as of a text, and the table stays; else 0, and every word of it is the model's.
pub fn draw(text: &[u8], t: &mut [Word; TABLE_WORDS]) -> Reading
    ensures { record { number = result.number; beside = result.beside; table = t.new } ≡ draw_into text.now t.old }
{
    draw_read::draw_into(text, t)
}

// Why a drawing is refused: the number that `draw` gives; with 21 the rule that is broken, with 4 the check, and the place of the first thing that breaks it; with 28 the place of the pool without room, with 3 and 20 the
// place that `draw` gives; else 0 and 0.
pub fn diagnose(text: &[u8]) -> Diagnosis
    ensures { result ≡ diagnosed text.now }
{
    draw_diagnose::diagnose(text)
}

// The answer of a writing: a number, and beside 0 the length of the text.
#[repr(C)]
#[derive(Clone, Copy)]
pub struct Written {
    pub number: Word,
    pub length: usize,
}

// The length of a table's text: writing into an empty buffer measures it.
fn text_length(t: &[Word]) -> usize
    ensures { result ≡ lesser (length (shown_table t.now)) last_place }
{
    let mut none = [0u8; 1];
    write_table::put_table(t, &mut none)
}

// Whether the text of a valid table fits into a buffer of n bytes. None is longer than TEXT_MOST, so that a buffer of that many needs no measuring.
fn has_room(t: &[Word; TABLE_WORDS], n: usize) -> bool
    requires { valid t.now ≡ true }
    ensures { result ≡ leb (length (shown_table t.now)) n }
{
    if n >= TEXT_MOST {
        return true;
    }
    text_length(t) <= n
}

// Writes the text of a table: 10 where the table is bad, 5 where the buffer is shorter than the text, and the buffer stays; else 0 and its length.
pub fn write(t: &[Word; TABLE_WORDS], out: &mut [u8]) -> Written
    ensures { record { number = result.number; length = result.length; buffer = out.new } ≡ written_to t.now out.old }
{
    if !is_valid(t) {
        return Written {
            number: BAD,
            length: 0,
        };
    }
    if !has_room(t, out.len()) {
        return Written {
            number: TOO_SHORT,
            length: 0,
        };
    }
    let n = write_table::put_table(t, out);
    Written {
        number: ACCEPTED,
        length: n,
    }
}

// Takes up to 64 named steps and posts out of lent words (`step_poll`), one by one until the first refusal: 22 where there are more, then 10, 25 and 26, and state and records stay; else
// how many were accepted, and the number of the refusal, and the records are those of the accepted part.
pub fn poll(
    t: &[Word; TABLE_WORDS],
    z: &mut [Word; STATE_WORDS],
    rs: &mut [[Word; RECORD_WORDS]],
    items: &[Word; POLL_WORDS],
    count: usize,
) -> Polled
    ensures { record { done = record { number = result.number; accepted = result.accepted; state = z.new }; records = rs.new } ≡ polled_at t.now z.old rs.old items.now count }
{
    let number = records_number(t, z, rs);
    let p = step_poll::poll_on(t, z, items, count, number);
    recount_in(rs, t, z, number);
    p
}

// Sets the desk's records by counting, whatever they hold: 10 where the table or the state is bad, 25 for another version, 26 where they are not as many as the pools, and they stay; else 0.
pub fn figures(
    t: &[Word; TABLE_WORDS],
    z: &[Word; STATE_WORDS],
    rs: &mut [[Word; RECORD_WORDS]],
) -> Word
    ensures { record { number = result; records = rs.new } ≡ figured_to t.now z.now rs.old }
{
    figure_in(rs, t, z, lent_number(t, z))
}

// Judges the run that a log tells from the fresh state of a version, in the lent state z: where it was lawful, z is the one that its last event left.
fn judge_in(t: &[Word; TABLE_WORDS], v: Word, log: &[u8], z: &mut [Word; STATE_WORDS]) -> Judged
    ensures { (result ≡ judged_to t.now v log.now) × (result.number ≡ 0 → z.new ≡ left_to t.now log.now (fresh t.now v)) }
{
    let number = asked_number(t, v);
    if number != ACCEPTED {
        return unjudged(number);
    }
    state_fresh::begin(t, v, z);
    log_judge::judge_on(t, z, log)
}

fn unjudged(number: Word) -> Judged
    ensures { result ≡ record { number = number; beside = 0; own = 0 } }
{
    Judged {
        number: number,
        beside: 0,
        own: 0,
    }
}

// Judges the run that a log tells, under version 10 or 20: 10 where the table is bad; 25 for another version; 23 with its place where it is no such log; 24 with the first event at fault and its number; else 0. The state
// that it works on is its own.
pub fn judge(t: &[Word; TABLE_WORDS], v: Word, log: &[u8]) -> Judged
    ensures { result ≡ judged_to t.now v log.now }
{
    let mut z: [Word; STATE_WORDS] = [0; STATE_WORDS];
    judge_in(t, v, log, &mut z)
}

// The state that a log's run leaves, from the fresh state of version 10 or 20: 10, 25, 23 and 24 as `judge` gives them, and the state stays; else 0, and the state is the one after the log's last event.
pub fn replay(t: &[Word; TABLE_WORDS], v: Word, log: &[u8], z: &mut [Word; STATE_WORDS]) -> Judged
    ensures { record { answer = result; state = z.new } ≡ replayed_to t.now v log.now z.old }
{
    let mut y: [Word; STATE_WORDS] = [0; STATE_WORDS];
    let r = judge_in(t, v, log, &mut y);
    if r.number == ACCEPTED {
        *z = y;
    }
    r
}

// The same from the lent state on: 10 where the table or the state is bad, 25 for another version, then 23 and 24, and the state stays; else 0.
pub fn resume(t: &[Word; TABLE_WORDS], z: &mut [Word; STATE_WORDS], log: &[u8]) -> Judged
    ensures { record { answer = result; state = z.new } ≡ resumed_to t.now z.old log.now }
{
    let number = lent_number(t, z);
    if number != ACCEPTED {
        return unjudged(number);
    }
    let mut y = *z;
    let r = log_judge::judge_on(t, &mut y, log);
    if r.number == ACCEPTED {
        *z = y;
    }
    r
}

// Repairs a log that ended in the middle, into the lent buffer: 27 where it cannot be, then 5 where there is no room or the log would be longer than 65,536 bytes, and the buffer stays; else 0, its length, how many
// events it keeps and how many bytes were dropped.
pub fn repair(text: &[u8], out: &mut [u8]) -> Repaired
    ensures { record { number = result.number; length = result.length; kept = result.kept; dropped = result.dropped; buffer = out.new } ≡ repaired_to text.now out.old }
{
    log_repair::repair_into(text, out)
}

// Whether every pool of a lent table is nested: 10 for a bad table, then 29 with the number of the first pool, in text order, that is not, else 0.
pub fn nested(t: &[Word; TABLE_WORDS]) -> Verdict
    ensures { result ≡ nested_of t.now }
{
    if !is_valid(t) {
        return Verdict {
            number: BAD,
            beside: 0,
        };
    }
    let p = check_nested::first_unnested(t);
    if p < pool_count(t) {
        return Verdict {
            number: NOT_NESTED,
            beside: number_at(t, p),
        };
    }
    Verdict {
        number: ACCEPTED,
        beside: 0,
    }
}
