// What the programs share of what they say on standard output. That a text is said is not part of a promise; what it is, and what becomes of the state, is.
#![tactic(auto)]

ghost use Rattle.std.specs.Prelude.{◌≡◌, length, replicate, ◌+◌, ◌≤◌};
ghost use Rattle.base_words.specs.Words.{greatest, digits};
ghost use Rattle.base_words.specs.Counts.{text_most};
ghost use Rattle.log_repair.specs.Repair.{repaired_to};
ghost use Rattle.write_buffer.specs.Buffers.{Put, lesser};
ghost use Rattle.write_decimals.specs.Decimals.{shown};
ghost use Rattle.write_lines.specs.Lines.{unread_line};
ghost use Rattle.text_read.specs.Notation.{read_into};
ghost use Rattle.engine.specs.Engine.{Stepped, RanTo, freshened};
ghost use Rattle.engine.specs.Desk.{AtDesk, ran_at};
ghost use Rattle.tool_print.specs.Judged.{beside_line, has_beside, unlawful_line, judged_line, judged_most};
ghost use Rattle.tool_print.specs.Lent.{lent_of, taken_on, ran_on, counted_on, ran_fresh};

use base_bytes::piece;
use base_state::places::STATE_WORDS;
use base_state::versions::PRESENT;
use base_table::places::TABLE_WORDS;
use base_table::pool_count;
use base_words::counts::TEXT_MOST;
use base_words::numbers::{AT_FAULT, NOT_A_LOG};
use base_words::{DIGITS, Word, wide};
use draw_diagnose::Diagnosis;
use engine::Ran;
use log_judge::Judged;
use log_repair::Repaired;
use meaning::{Answer, Name};
use state_figures::RECORD_WORDS;
use std::env::Env;
use std::io::Read;
use step_run::Steps;
use text_numerals::{Number, number_of};
use text_read::Reading;
use write_buffer::{least, put_byte, put_bytes};
use write_decimals::put_number;
use write_lines::{STEP_LINE, UNREAD_LINE, put_beside};

// The most steps of a run that is told from its fresh state.
pub const STEPS: Steps = 100;

fn version_in(n: Number) -> Word {
    match n {
        Number::Value(v) => v,
        Number::TooLarge => 0,
        Number::NotANumber => 0,
    }
}

// The version that the argument at a place names: 20 where there is none, 0, which is none, where it is no number.
pub fn asked_version(rt: &impl Env, at: usize) -> Word
    ensures { result ≤ greatest }
{
    let mut out = [0u8; DIGITS];
    let n = argument(rt, at, &mut out);
    if n == 0 {
        return PRESENT;
    }
    version_in(number_of(piece(&out, 0, n)))
}

// Puts the argument at a place at the start of a buffer; gives back its length, 0 where there is none or it is longer than the buffer.
pub fn argument(rt: &impl Env, at: usize, out: &mut [u8]) -> usize
    ensures { result ≤ length out.new }
{
    rt.arg(at, out).unwrap_or(0)
}

// Reads once, what is there; gives back how many bytes came, 0 at the input's end. A read that fails is the end.
pub fn read_part(rt: &impl Input, out: &mut [u8]) -> usize
    ensures { result ≤ length out.new }
{
    rt.reader().read(out).unwrap_or(0)
}

// Reads until a buffer is full or the input is at its end; gives back how many bytes came.
pub fn read_full(rt: &impl Input, out: &mut [u8]) -> usize
    ensures { result ≤ length out.new }
{
    let mut done: usize = 0;
    // Stays a while: each read says how far it came.
    while done < out.len() {
        let n = read_part(rt, &mut out[done..]);
        if n == 0 {
            return done;
        }
        done += n;
    }
    done
}

// Says a text; gives back its length. What cannot be written is lost.
pub fn tell(rt: &impl Print, text: &[u8]) -> usize
    ensures { result ≡ length text.now }
{
    let _ = rt.write_all(text);
    text.len()
}

// Says a number, as far as a word holds it; gives back its length.
pub fn tell_count(rt: &impl Print, n: usize) -> usize
    ensures { result ≡ length (shown (lesser n greatest)) }
{
    let mut out = [0u8; DIGITS];
    let k = put_beside(&mut out, 0, n);
    tell(rt, piece(&out, 0, k));
    k
}

// Says the line of a refused text; gives back its length. A place above the greatest word, which no text that is read has, is said as that one.
pub fn tell_unread(rt: &impl Print, r: Reading) -> usize
    ensures { result ≡ length (unread_line r.number (lesser r.beside greatest)) }
{
    let mut out = [0u8; UNREAD_LINE];
    let n = write_lines::put_unread(&mut out, 0, r.number, r.beside);
    tell(rt, piece(&out, 0, n));
    n
}

// Reads a model's text into the table, and says a refusal.
pub fn tell_read(rt: &impl Print, text: &[u8], t: &mut [Word; TABLE_WORDS]) -> Reading
    ensures { record { number = result.number; beside = result.beside; table = t.new } ≡ read_into text.now t.old }
{
    let r = engine::read(text, t);
    if r.number != 0 {
        tell_unread(rt, r);
    }
    r
}

// Makes a fresh state for a version, and says a refusal.
pub fn tell_fresh(
    rt: &impl Print,
    t: &[Word; TABLE_WORDS],
    v: Word,
    z: &mut [Word; STATE_WORDS],
) -> Word
    ensures { record { number = result; state = z.new } ≡ freshened t.now v z.old }
{
    let number = engine::fresh(t, v, z);
    if number != 0 {
        tell_unread(rt, Reading { number, beside: 0 });
    }
    number
}

const JUDGED_LINE: usize = 8 + DIGITS + (1 + DIGITS) + (1 + DIGITS) + 1;

// A number behind a blank, where one is said.
fn put_next(out: &mut [u8], from: usize, told: bool, n: usize) -> usize
    ensures { Put (beside_line told (lesser n greatest)) (1 + digits) from out.old result out.new }
{
    if !told {
        return from;
    }
    let blank = put_byte(out, from, b' ');
    put_beside(out, blank, n)
}

fn has_beside(number: Word) -> bool
    ensures { result ≡ has_beside number }
{
    number == NOT_A_LOG || number == AT_FAULT
}

// 10 and 25 have nothing beside them, 23 its place, 24 the event's ordinal and its own number.
fn put_unlawful(out: &mut [u8], r: Judged) -> usize
    ensures { Put (unlawful_line r.number (lesser r.beside greatest) (lesser r.own greatest)) judged_most 0 out.old result out.new }
{
    let beside = has_beside(r.number);
    let word = put_bytes(out, 0, b"refused ");
    let told = put_number(out, word, r.number);
    let place = put_next(out, told, beside, r.beside);
    let all = put_next(out, place, r.number == AT_FAULT, r.own as usize);
    put_byte(out, all, b'\n')
}

// Says whether a log is lawful; gives back the length of the line.
pub fn tell_judged(rt: &impl Print, r: Judged) -> usize
    ensures { result ≡ length (judged_line r.number (lesser r.beside greatest) (lesser r.own greatest)) }
{
    if r.number == 0 {
        return tell(rt, b"lawful\n");
    }
    let mut out = [0u8; JUDGED_LINE];
    let n = put_unlawful(&mut out, r);
    tell(rt, piece(&out, 0, n));
    n
}

fn tell_named(rt: &impl Print, word: &[u8], n: usize) {
    tell(rt, word);
    tell_count(rt, n);
}

fn tell_kept(rt: &impl Print, r: Repaired) {
    tell_named(rt, b"kept ", r.kept);
    tell_named(rt, b" dropped ", r.dropped);
    tell_named(rt, b" length ", r.length);
    tell(rt, b"\n");
}

fn tell_lost(rt: &impl Print, number: Word) -> Word
    ensures { result ≡ number }
{
    tell_named(rt, b"refused ", number as usize);
    tell(rt, b"\n");
    number
}

fn tell_mended(rt: &impl Print, r: Repaired, out: &[u8]) -> Word
    ensures { result ≡ r.number }
{
    let number = r.number;
    tell_kept(rt, r);
    tell(rt, piece(out, 0, r.length));
    tell(rt, b"\n");
    number
}

// Repairs a log into a buffer of 65,536 bytes, and says what is kept of it and the log, or the refusal; gives back the number.
pub fn tell_repaired(rt: &impl Print, text: &[u8]) -> Word
    ensures { result ≡ (repaired_to text.now (replicate text_most 0)).number }
{
    let mut out = [0u8; TEXT_MOST];
    let r = engine::repair(text, &mut out);
    if r.number != 0 {
        return tell_lost(rt, r.number);
    }
    tell_mended(rt, r, &out)
}

fn tell_broken(rt: &impl Print, d: Diagnosis) -> Word
    ensures { result ≡ d.number }
{
    tell_named(rt, b"refused ", d.number as usize);
    tell_named(rt, b" ", d.rule);
    tell_named(rt, b" ", d.place);
    tell(rt, b"\n");
    d.number
}

// Says why a drawing is refused: its number, the rule or check that is broken, and the place; gives back the number.
pub fn tell_diagnosed(rt: &impl Print, d: Diagnosis) -> Word
    ensures { result ≡ d.number }
{
    let number = d.number;
    if number == 0 {
        tell(rt, b"ok\n");
        return number;
    }
    tell_broken(rt, d)
}

// The line of a step that was taken.
fn tell_step(rt: &impl Print, n: Name, a: Answer) {
    let mut out = [0u8; STEP_LINE];
    let k = write_lines::put_step(&mut out, 0, n, a);
    tell(rt, piece(&out, 0, k));
    tell(rt, b"\n");
}

// Records of as many pools as a table can have. A call is lent those of the pools that the table has, the first of them.
pub const RECORDS: usize = 4;

pub fn lent(t: &[Word; TABLE_WORDS], records: usize) -> usize
    ensures { (result ≡ lent_of t.now records) × (result ≤ records) }
{
    least(wide(pool_count(t)), records)
}

// Sets the records by counting.
pub fn set_records(
    t: &[Word; TABLE_WORDS],
    z: &[Word; STATE_WORDS],
    rs: &mut [[Word; RECORD_WORDS]],
) -> Word
    ensures { record { done = result; records = rs.new } ≡ counted_on t.now z.now rs.old }
{
    let n = lent(t, rs.len());
    engine::figures(t, z, &mut rs[..n])
}

// Takes a step.
pub fn take(
    t: &[Word; TABLE_WORDS],
    z: &mut [Word; STATE_WORDS],
    rs: &mut [[Word; RECORD_WORDS]],
    name: Name,
) -> Answer
    ensures { record { done = record { answer = result; state = z.new }; records = rs.new } ≡ taken_on t.now z.old rs.old name }
{
    let n = lent(t, rs.len());
    engine::step(t, z, &mut rs[..n], name)
}

// A run.
pub fn run_all(
    t: &[Word; TABLE_WORDS],
    z: &mut [Word; STATE_WORDS],
    rs: &mut [[Word; RECORD_WORDS]],
    limit: Steps,
) -> Ran
    ensures { record { done = record { number = result.number; steps = result.steps; left = result.left; state = z.new }; records = rs.new } ≡ ran_on t.now z.old rs.old limit }
{
    let n = lent(t, rs.len());
    engine::run(t, z, &mut rs[..n], limit)
}

// Takes the first listed step and says it.
fn run_once(
    rt: &impl Print,
    t: &[Word; TABLE_WORDS],
    y: &mut [Word; STATE_WORDS],
    ys: &mut [[Word; RECORD_WORDS]],
) {
    let r = engine::list(t, y, 0);
    if r.number != 0 {
        return;
    }
    let a = take(t, y, ys, r.name);
    tell_step(rt, r.name, a);
}

fn run_each(
    rt: &impl Print,
    t: &[Word; TABLE_WORDS],
    y: &mut [Word; STATE_WORDS],
    ys: &mut [[Word; RECORD_WORDS]],
    steps: Steps,
) {
    for _ in 0..steps {
        run_once(rt, t, y, ys);
    }
}

// Takes the first listed step of a copy of the state as often as a run would, and says each.
fn tell_steps(rt: &impl Print, t: &[Word; TABLE_WORDS], y: &mut [Word; STATE_WORDS], steps: Steps) {
    let mut ys: [[Word; RECORD_WORDS]; RECORDS] = [[0; RECORD_WORDS]; RECORDS];
    set_records(t, y, &mut ys);
    run_each(rt, t, y, &mut ys, steps);
}

fn tell_end(rt: &impl Print, steps: Steps, left: Word) {
    tell(rt, b"steps ");
    tell_count(rt, steps as usize);
    tell(rt, b" left ");
    tell_count(rt, left as usize);
    tell(rt, b"\n");
}

// A run, and a line for each of its steps, taken again on a copy of the state; last the steps and the flag. A refused run says nothing.
pub fn tell_run(
    rt: &impl Print,
    t: &[Word; TABLE_WORDS],
    z: &mut [Word; STATE_WORDS],
    rs: &mut [[Word; RECORD_WORDS]],
    limit: Steps,
) -> Ran
    ensures { record { done = record { number = result.number; steps = result.steps; left = result.left; state = z.new }; records = rs.new } ≡ ran_at t.now z.old rs.old limit }
{
    let mut y: [Word; STATE_WORDS] = *z;
    let r = engine::run(t, z, rs, limit);
    if r.number != 0 {
        return r;
    }
    tell_steps(rt, t, &mut y, r.steps);
    tell_end(rt, r.steps, r.left);
    r
}

// The run of a fresh state, with the records of its own.
pub fn tell_fresh_run(
    rt: &impl Print,
    t: &[Word; TABLE_WORDS],
    z: &mut [Word; STATE_WORDS],
    limit: Steps,
)
    ensures { z.new ≡ ran_fresh t.now z.old limit }
{
    let mut rs: [[Word; RECORD_WORDS]; RECORDS] = [[0; RECORD_WORDS]; RECORDS];
    set_records(t, z, &mut rs);
    tell_lent_run(rt, t, z, &mut rs, limit);
}

fn tell_lent_run(
    rt: &impl Print,
    t: &[Word; TABLE_WORDS],
    z: &mut [Word; STATE_WORDS],
    rs: &mut [[Word; RECORD_WORDS]],
    limit: Steps,
)
    ensures { z.new ≡ (ran_on t.now z.old rs.old limit).done.state }
{
    let n = lent(t, rs.len());
    tell_run(rt, t, z, &mut rs[..n], limit);
}
