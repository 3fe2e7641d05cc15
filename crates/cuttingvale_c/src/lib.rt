// The public calls as C links them, by the names of include/cuttingvale.h: each is the call of the library `cuttingvale` that has its name, and promises what that promises. They
// are a crate of their own, since a crate is a library or a static library.
#![tactic(auto)]

ghost use Rattle.std.specs.Prelude.{◌≡◌};
ghost use Rattle.draw_diagnose.specs.Diagnosis.{diagnosed};
ghost use Rattle.log_repair.specs.Repair.{repaired_to};
ghost use Rattle.write_lines.specs.Lines.{step_line};
ghost use Rattle.log_write.specs.Xes.{header, event_text, footer};
ghost use Rattle.log_pieces.specs.Pieces.{post_line, piece_in};
ghost use Rattle.cuttingvale.specs.Boundary.{checked_by, freshened_by, stepped_by, posted_by, listed_by, ran_lent, figured_by, read_by, drawn_by, written_by, polled_lent, judged_lent, replayed_by, resumed_by, answer_to_c, nested_by};
ghost use Rattle.cuttingvale.specs.Release.{layouts, release};

use base_state::places::STATE_WORDS;
use base_table::places::TABLE_WORDS;
use base_words::Word;
use cuttingvale::{Taken, version};
use draw_diagnose::Diagnosis;
use engine::{Ran, Verdict, Written};
use log_judge::Judged;
use log_pieces::Piece;
use log_repair::Repaired;
use meaning::{Name, Tuple};
use state_figures::RECORD_WORDS;
use step_list::Listed;
use step_poll::{POLL_WORDS, Polled};
use step_run::Steps;
use text_read::Reading;

#[unsafe(no_mangle)]
pub extern "C" fn cv_check(table: &[Word; TABLE_WORDS], tablelength: usize) -> Verdict
    ensures { result ≡ checked_by table.now tablelength }
{
    cuttingvale::cv_check(table, tablelength)
}

#[unsafe(no_mangle)]
pub extern "C" fn cv_fresh(
    table: &[Word; TABLE_WORDS],
    tablelength: usize,
    version: Word,
    state: &mut [Word; STATE_WORDS],
    statelength: usize,
) -> Word
    ensures { record { number = result; state = state.new } ≡ freshened_by table.now tablelength version state.old statelength }
{
    cuttingvale::cv_fresh(table, tablelength, version, state, statelength)
}

#[unsafe(no_mangle)]
pub extern "C" fn cv_step(
    table: &[Word; TABLE_WORDS],
    tablelength: usize,
    state: &mut [Word; STATE_WORDS],
    statelength: usize,
    records: &mut [[Word; RECORD_WORDS]],
    name: Name,
) -> Taken
    ensures { record { done = record { answer = result; state = state.new }; records = records.new } ≡ stepped_by table.now tablelength state.old statelength records.old name }
{
    cuttingvale::cv_step(table, tablelength, state, statelength, records, name)
}

#[unsafe(no_mangle)]
pub extern "C" fn cv_post(
    table: &[Word; TABLE_WORDS],
    tablelength: usize,
    state: &mut [Word; STATE_WORDS],
    statelength: usize,
    name: Word,
    values: Tuple,
) -> Word
    ensures { record { number = result; state = state.new } ≡ posted_by table.now tablelength state.old statelength name values }
{
    cuttingvale::cv_post(table, tablelength, state, statelength, name, values)
}

#[unsafe(no_mangle)]
pub extern "C" fn cv_list(
    table: &[Word; TABLE_WORDS],
    tablelength: usize,
    state: &[Word; STATE_WORDS],
    statelength: usize,
    ordinal: usize,
) -> Listed
    ensures { result ≡ listed_by table.now tablelength state.now statelength ordinal }
{
    cuttingvale::cv_list(table, tablelength, state, statelength, ordinal)
}

#[unsafe(no_mangle)]
pub extern "C" fn cv_run(
    table: &[Word; TABLE_WORDS],
    tablelength: usize,
    state: &mut [Word; STATE_WORDS],
    statelength: usize,
    records: &mut [[Word; RECORD_WORDS]],
    limit: Steps,
) -> Ran
    ensures { record { done = record { number = result.number; steps = result.steps; left = result.left; state = state.new }; records = records.new } ≡ ran_lent table.now tablelength state.old statelength records.old limit }
{
    cuttingvale::cv_run(table, tablelength, state, statelength, records, limit)
}

#[unsafe(no_mangle)]
pub extern "C" fn cv_figures(
    table: &[Word; TABLE_WORDS],
    tablelength: usize,
    state: &[Word; STATE_WORDS],
    statelength: usize,
    records: &mut [[Word; RECORD_WORDS]],
) -> Word
    ensures { record { number = result; records = records.new } ≡ figured_by table.now tablelength state.now statelength records.old }
{
    cuttingvale::cv_figures(table, tablelength, state, statelength, records)
}

#[unsafe(no_mangle)]
pub extern "C" fn cv_read(
    text: &[u8],
    table: &mut [Word; TABLE_WORDS],
    tablelength: usize,
) -> Reading
    ensures { record { number = result.number; beside = result.beside; table = table.new } ≡ read_by text.now table.old tablelength }
{
    cuttingvale::cv_read(text, table, tablelength)
}

#[unsafe(no_mangle)]
pub extern "C" fn cv_draw(
    text: &[u8],
    table: &mut [Word; TABLE_WORDS],
    tablelength: usize,
) -> Reading
    ensures { record { number = result.number; beside = result.beside; table = table.new } ≡ drawn_by text.now table.old tablelength }
{
    cuttingvale::cv_draw(text, table, tablelength)
}

#[unsafe(no_mangle)]
pub extern "C" fn cv_diagnose(text: &[u8]) -> Diagnosis
    ensures { result ≡ diagnosed text.now }
{
    cuttingvale::cv_diagnose(text)
}

#[unsafe(no_mangle)]
pub extern "C" fn cv_write(
    table: &[Word; TABLE_WORDS],
    tablelength: usize,
    buffer: &mut [u8],
) -> Written
    ensures { record { number = result.number; length = result.length; buffer = buffer.new } ≡ written_by table.now tablelength buffer.old }
{
    cuttingvale::cv_write(table, tablelength, buffer)
}

#[unsafe(no_mangle)]
pub extern "C" fn cv_poll(
    table: &[Word; TABLE_WORDS],
    tablelength: usize,
    state: &mut [Word; STATE_WORDS],
    statelength: usize,
    records: &mut [[Word; RECORD_WORDS]],
    items: &[Word; POLL_WORDS],
    itemslength: usize,
    count: usize,
) -> Polled
    ensures { record { done = record { number = result.number; accepted = result.accepted; state = state.new }; records = records.new } ≡ polled_lent table.now tablelength state.old statelength records.old items.now itemslength count }
{
    cuttingvale::cv_poll(
        table,
        tablelength,
        state,
        statelength,
        records,
        items,
        itemslength,
        count,
    )
}

#[unsafe(no_mangle)]
pub extern "C" fn cv_judge(
    table: &[Word; TABLE_WORDS],
    tablelength: usize,
    version: Word,
    log: &[u8],
) -> Judged
    ensures { result ≡ judged_lent table.now tablelength version log.now }
{
    cuttingvale::cv_judge(table, tablelength, version, log)
}

#[unsafe(no_mangle)]
pub extern "C" fn cv_replay(
    table: &[Word; TABLE_WORDS],
    tablelength: usize,
    version: Word,
    log: &[u8],
    state: &mut [Word; STATE_WORDS],
    statelength: usize,
) -> Judged
    ensures { record { answer = result; state = state.new } ≡ replayed_by table.now tablelength version log.now state.old statelength }
{
    cuttingvale::cv_replay(table, tablelength, version, log, state, statelength)
}

#[unsafe(no_mangle)]
pub extern "C" fn cv_resume(
    table: &[Word; TABLE_WORDS],
    tablelength: usize,
    state: &mut [Word; STATE_WORDS],
    statelength: usize,
    log: &[u8],
) -> Judged
    ensures { record { answer = result; state = state.new } ≡ resumed_by table.now tablelength state.old statelength log.now }
{
    cuttingvale::cv_resume(table, tablelength, state, statelength, log)
}

#[unsafe(no_mangle)]
pub extern "C" fn cv_log_begin(buffer: &mut [u8]) -> Piece
    ensures { record { number = result.number; length = result.length; buffer = buffer.new } ≡ piece_in header buffer.old }
{
    cuttingvale::cv_log_begin(buffer)
}

#[unsafe(no_mangle)]
pub extern "C" fn cv_log_step(name: Name, answer: Taken, moment: u64, buffer: &mut [u8]) -> Piece
    ensures { record { number = result.number; length = result.length; buffer = buffer.new } ≡ piece_in (event_text moment (step_line name (answer_to_c answer))) buffer.old }
{
    cuttingvale::cv_log_step(name, answer, moment, buffer)
}

#[unsafe(no_mangle)]
pub extern "C" fn cv_log_post(name: Word, values: Tuple, moment: u64, buffer: &mut [u8]) -> Piece
    ensures { record { number = result.number; length = result.length; buffer = buffer.new } ≡ piece_in (event_text moment (post_line name values)) buffer.old }
{
    cuttingvale::cv_log_post(name, values, moment, buffer)
}

#[unsafe(no_mangle)]
pub extern "C" fn cv_log_end(buffer: &mut [u8]) -> Piece
    ensures { record { number = result.number; length = result.length; buffer = buffer.new } ≡ piece_in footer buffer.old }
{
    cuttingvale::cv_log_end(buffer)
}

#[unsafe(no_mangle)]
pub extern "C" fn cv_repair(text: &[u8], buffer: &mut [u8]) -> Repaired
    ensures { record { number = result.number; length = result.length; kept = result.kept; dropped = result.dropped; buffer = buffer.new } ≡ repaired_to text.now buffer.old }
{
    cuttingvale::cv_repair(text, buffer)
}

#[unsafe(no_mangle)]
pub extern "C" fn cv_nested(table: &[Word; TABLE_WORDS], tablelength: usize) -> Verdict
    ensures { result ≡ nested_by table.now tablelength }
{
    cuttingvale::cv_nested(table, tablelength)
}

#[unsafe(no_mangle)]
pub extern "C" fn cv_version() -> Word
    ensures { result ≡ release }
{
    version::cv_version()
}

// The header refers to this name: where a table, a state or what crosses in a call is laid out otherwise, the name has another number, and a program of the other header does not link.
#[unsafe(no_mangle)]
pub extern "C" fn cv_abi_4() -> Word
    ensures { result ≡ layouts }
{
    version::cv_abi_4()
}
