// The public calls as C has them: include/cuttingvale.h; the static library cuttingvale_c exports them. Each block comes with its length in words, and a wrong one is refused before the block is looked at.
#![tactic(auto)]

ghost use Rattle.std.specs.Prelude.{◌≡◌};
ghost use Rattle.meaning.specs.Tuples.{empty};
ghost use Rattle.step_poll.specs.Poll.{Polling};
ghost use Rattle.step_names.specs.Names.{blank_name};
ghost use Rattle.draw_diagnose.specs.Diagnosis.{diagnosed};
ghost use Rattle.log_repair.specs.Repair.{Repair, repaired_to};
ghost use Rattle.write_lines.specs.Lines.{step_line};
ghost use Rattle.log_write.specs.Xes.{header, event_text, footer};
ghost use Rattle.log_pieces.specs.Pieces.{post_line, piece_in};
ghost use Rattle.cuttingvale.specs.Boundary.{are_whole, checked_by, freshened_by, traffic_number, stepped_by, posted_by, listed_by, ran_lent, figured_by, read_by, drawn_by, written_by, lent_wrong, are_lent, polled_lent, judged_lent, replayed_by, resumed_by, traffic_by, answer_to_c, nested_by};

use base_state::places::STATE_WORDS;
use base_table::places::TABLE_WORDS;
use base_words::Word;
use base_words::numbers::{BAD, TOO_MANY};
use draw_diagnose::Diagnosis;
use engine::{Ran, Verdict, Written};
use log_judge::Judged;
use log_pieces::Piece;
use log_repair::Repaired;
use meaning::{Answer, Name, Traffic, Tuple, empty_tuple};
use state_figures::RECORD_WORDS;
use step_list::Listed;
use step_poll::{ITEMS, POLL_WORDS, Polled};
use step_run::Steps;
use text_read::Reading;

pub mod version;

// What a step did to the queues, as a number: an enum does not cross to C.
pub const NOTHING: Word = 0;

pub const CONSUMED: Word = 1;

pub const SENT: Word = 2;

// The answer of a step, with that number in the place of the enum.
#[repr(C)]
#[derive(Clone, Copy)]
pub struct Taken {
    pub number: Word,
    pub traffic: Word,
    pub name: Word,
    pub tuple: Tuple,
}

pub fn cv_check(table: &[Word; TABLE_WORDS], tablelength: usize) -> Verdict
    ensures { result ≡ checked_by table.now tablelength }
{
    if tablelength != TABLE_WORDS {
        return Verdict {
            number: BAD,
            beside: 0,
        };
    }
    engine::check(table)
}

fn are_whole(tablelength: usize, statelength: usize) -> bool
    ensures { result ≡ are_whole tablelength statelength }
{
    if tablelength != TABLE_WORDS {
        return false;
    }
    statelength == STATE_WORDS
}

pub fn cv_fresh(
    table: &[Word; TABLE_WORDS],
    tablelength: usize,
    version: Word,
    state: &mut [Word; STATE_WORDS],
    statelength: usize,
) -> Word
    ensures { record { number = result; state = state.new } ≡ freshened_by table.now tablelength version state.old statelength }
{
    if !are_whole(tablelength, statelength) {
        return BAD;
    }
    engine::fresh(table, version, state)
}

fn number_of(traffic: Traffic) -> Word
    ensures { result ≡ traffic_number traffic }
{
    match traffic {
        Traffic::Nothing => NOTHING,
        Traffic::Consumed => CONSUMED,
        Traffic::Sent => SENT,
    }
}

fn untaken() -> Taken
    ensures { result ≡ record { number = 10; traffic = 0; name = 0; tuple = empty } }
{
    Taken {
        number: BAD,
        traffic: NOTHING,
        name: 0,
        tuple: empty_tuple(),
    }
}

pub fn cv_step(
    table: &[Word; TABLE_WORDS],
    tablelength: usize,
    state: &mut [Word; STATE_WORDS],
    statelength: usize,
    records: &mut [[Word; RECORD_WORDS]],
    name: Name,
) -> Taken
    ensures { record { done = record { answer = result; state = state.new }; records = records.new } ≡ stepped_by table.now tablelength state.old statelength records.old name }
{
    if !are_whole(tablelength, statelength) {
        return untaken();
    }
    let a = engine::step(table, state, records, name);
    let traffic = a.traffic;
    let tuple = a.tuple;
    Taken {
        number: a.number,
        traffic: number_of(traffic),
        name: a.name,
        tuple: tuple,
    }
}

pub fn cv_post(
    table: &[Word; TABLE_WORDS],
    tablelength: usize,
    state: &mut [Word; STATE_WORDS],
    statelength: usize,
    name: Word,
    values: Tuple,
) -> Word
    ensures { record { number = result; state = state.new } ≡ posted_by table.now tablelength state.old statelength name values }
{
    if !are_whole(tablelength, statelength) {
        return BAD;
    }
    engine::post(table, state, name, values)
}

fn unlisted() -> Listed
    ensures { result ≡ record { number = 10; name = blank_name } }
{
    Listed {
        number: BAD,
        name: Name {
            pool: 0,
            instance: 0,
            element: 0,
            phase: 0,
            branch: 0,
            given: empty_tuple(),
        },
    }
}

pub fn cv_list(
    table: &[Word; TABLE_WORDS],
    tablelength: usize,
    state: &[Word; STATE_WORDS],
    statelength: usize,
    ordinal: usize,
) -> Listed
    ensures { result ≡ listed_by table.now tablelength state.now statelength ordinal }
{
    if !are_whole(tablelength, statelength) {
        return unlisted();
    }
    engine::list(table, state, ordinal)
}

pub fn cv_run(
    table: &[Word; TABLE_WORDS],
    tablelength: usize,
    state: &mut [Word; STATE_WORDS],
    statelength: usize,
    records: &mut [[Word; RECORD_WORDS]],
    limit: Steps,
) -> Ran
    ensures { record { done = record { number = result.number; steps = result.steps; left = result.left; state = state.new }; records = records.new } ≡ ran_lent table.now tablelength state.old statelength records.old limit }
{
    if !are_whole(tablelength, statelength) {
        return Ran {
            number: BAD,
            steps: 0,
            left: 0,
        };
    }
    engine::run(table, state, records, limit)
}

// The records' number comes with them, as a text's length does.
pub fn cv_figures(
    table: &[Word; TABLE_WORDS],
    tablelength: usize,
    state: &[Word; STATE_WORDS],
    statelength: usize,
    records: &mut [[Word; RECORD_WORDS]],
) -> Word
    ensures { record { number = result; records = records.new } ≡ figured_by table.now tablelength state.now statelength records.old }
{
    if !are_whole(tablelength, statelength) {
        return BAD;
    }
    engine::figures(table, state, records)
}

pub fn cv_read(text: &[u8], table: &mut [Word; TABLE_WORDS], tablelength: usize) -> Reading
    ensures { record { number = result.number; beside = result.beside; table = table.new } ≡ read_by text.now table.old tablelength }
{
    if tablelength != TABLE_WORDS {
        return Reading {
            number: BAD,
            beside: 0,
        };
    }
    engine::read(text, table)
}

pub fn cv_draw(text: &[u8], table: &mut [Word; TABLE_WORDS], tablelength: usize) -> Reading
    ensures { record { number = result.number; beside = result.beside; table = table.new } ≡ drawn_by text.now table.old tablelength }
{
    if tablelength != TABLE_WORDS {
        return Reading {
            number: BAD,
            beside: 0,
        };
    }
    engine::draw(text, table)
}

// The text's length comes with it: there is no other length to be wrong.
pub fn cv_diagnose(text: &[u8]) -> Diagnosis
    ensures { result ≡ diagnosed text.now }
{
    engine::diagnose(text)
}

pub fn cv_write(table: &[Word; TABLE_WORDS], tablelength: usize, buffer: &mut [u8]) -> Written
    ensures { record { number = result.number; length = result.length; buffer = buffer.new } ≡ written_by table.now tablelength buffer.old }
{
    if tablelength != TABLE_WORDS {
        return Written {
            number: BAD,
            length: 0,
        };
    }
    engine::write(table, buffer)
}

// A block of a wrong length is 10, as a bad one, and 22 goes before it.
fn wrong_number(count: usize) -> Word
    ensures { result ≡ lent_wrong count }
{
    if count > ITEMS {
        return TOO_MANY;
    }
    BAD
}

fn are_lent(tablelength: usize, statelength: usize, itemslength: usize) -> bool
    ensures { result ≡ are_lent tablelength statelength itemslength }
{
    if itemslength != POLL_WORDS {
        return false;
    }
    are_whole(tablelength, statelength)
}

pub fn cv_poll(
    table: &[Word; TABLE_WORDS],
    tablelength: usize,
    state: &mut [Word; STATE_WORDS],
    statelength: usize,
    records: &mut [[Word; RECORD_WORDS]],
    items: &[Word; POLL_WORDS],
    itemslength: usize,
    count: usize,
) -> Polled
    ensures { record { done = record { number = result.number; accepted = result.accepted; state = state.new }; records = records.new } ≡ polled_lent table.now tablelength state.old statelength records.old items.now itemslength count }
{
    if !are_lent(tablelength, statelength, itemslength) {
        return Polled {
            number: wrong_number(count),
            accepted: 0,
        };
    }
    engine::poll(table, state, records, items, count)
}

fn unjudged() -> Judged
    ensures { result ≡ record { number = 10; beside = 0; own = 0 } }
{
    Judged {
        number: BAD,
        beside: 0,
        own: 0,
    }
}

pub fn cv_judge(
    table: &[Word; TABLE_WORDS],
    tablelength: usize,
    version: Word,
    log: &[u8],
) -> Judged
    ensures { result ≡ judged_lent table.now tablelength version log.now }
{
    if tablelength != TABLE_WORDS {
        return unjudged();
    }
    engine::judge(table, version, log)
}

pub fn cv_replay(
    table: &[Word; TABLE_WORDS],
    tablelength: usize,
    version: Word,
    log: &[u8],
    state: &mut [Word; STATE_WORDS],
    statelength: usize,
) -> Judged
    ensures { record { answer = result; state = state.new } ≡ replayed_by table.now tablelength version log.now state.old statelength }
{
    if !are_whole(tablelength, statelength) {
        return unjudged();
    }
    engine::replay(table, version, log, state)
}

pub fn cv_resume(
    table: &[Word; TABLE_WORDS],
    tablelength: usize,
    state: &mut [Word; STATE_WORDS],
    statelength: usize,
    log: &[u8],
) -> Judged
    ensures { record { answer = result; state = state.new } ≡ resumed_by table.now tablelength state.old statelength log.now }
{
    if !are_whole(tablelength, statelength) {
        return unjudged();
    }
    engine::resume(table, state, log)
}

// What a number says that a step did to the queues.
fn traffic_of(number: Word) -> Traffic
    ensures { result ≡ traffic_by number }
{
    if number == CONSUMED {
        return Traffic::Consumed;
    }
    if number == SENT {
        return Traffic::Sent;
    }
    Traffic::Nothing
}

fn answer_of(a: Taken) -> Answer
    ensures { result ≡ answer_to_c a }
{
    let tuple = a.tuple;
    Answer {
        number: a.number,
        traffic: traffic_of(a.traffic),
        name: a.name,
        tuple: tuple,
    }
}

pub fn cv_log_begin(buffer: &mut [u8]) -> Piece
    ensures { record { number = result.number; length = result.length; buffer = buffer.new } ≡ piece_in header buffer.old }
{
    log_pieces::begin(buffer)
}

pub fn cv_log_step(name: Name, answer: Taken, moment: u64, buffer: &mut [u8]) -> Piece
    ensures { record { number = result.number; length = result.length; buffer = buffer.new } ≡ piece_in (event_text moment (step_line name (answer_to_c answer))) buffer.old }
{
    log_pieces::step(name, answer_of(answer), moment, buffer)
}

pub fn cv_log_post(name: Word, values: Tuple, moment: u64, buffer: &mut [u8]) -> Piece
    ensures { record { number = result.number; length = result.length; buffer = buffer.new } ≡ piece_in (event_text moment (post_line name values)) buffer.old }
{
    log_pieces::post(name, values, moment, buffer)
}

pub fn cv_log_end(buffer: &mut [u8]) -> Piece
    ensures { record { number = result.number; length = result.length; buffer = buffer.new } ≡ piece_in footer buffer.old }
{
    log_pieces::end(buffer)
}

// The buffer's length comes with it, as the text's does: there is no other length to be wrong.
pub fn cv_repair(text: &[u8], buffer: &mut [u8]) -> Repaired
    ensures { record { number = result.number; length = result.length; kept = result.kept; dropped = result.dropped; buffer = buffer.new } ≡ repaired_to text.now buffer.old }
{
    engine::repair(text, buffer)
}

pub fn cv_nested(table: &[Word; TABLE_WORDS], tablelength: usize) -> Verdict
    ensures { result ≡ nested_by table.now tablelength }
{
    if tablelength != TABLE_WORDS {
        return Verdict {
            number: BAD,
            beside: 0,
        };
    }
    engine::nested(table)
}
