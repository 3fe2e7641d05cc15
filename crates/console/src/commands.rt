// What each command does. Those that make a table answer how many records are lent of it.
use super::batch::do_batch;
use super::blocks::{do_again, do_check, do_nested, set_word};
use super::desk::{Held, do_figures, hold, lending, set_record};
use super::lines::{Command, OnModel, command_of};
use super::output::{
    bad_line, no_model, tell_done, tell_name, tell_ok, tell_refused, tell_traffic,
};
use super::report::report;
use base_bytes::piece;
use base_state::places::STATE_WORDS;
use base_state::versions::PRESENT;
use base_table::places::TABLE_WORDS;
use base_words::Word;
use base_words::counts::TEXT_MOST;
use log_judge::Judged;
use meaning::Answer;
use state_figures::RECORD_WORDS;
use step_run::Steps;
use text_read::Reading;
use tool_print::{tell, tell_diagnosed, tell_judged, tell_repaired, tell_run, tell_unread};

// What a text or a drawing was read as: a model gets a fresh state.
fn begin(
    rt: &impl Print,
    r: Reading,
    h: Held,
    t: &[Word; TABLE_WORDS],
    z: &mut [Word; STATE_WORDS],
    rs: &mut [[Word; RECORD_WORDS]],
) -> Held {
    if r.number != 0 {
        tell_unread(rt, r);
        return h;
    }
    tell_done(rt, engine::fresh(t, PRESENT, z));
    Some(hold(t, z, rs))
}

fn tell_answer(rt: &impl Print, a: Answer) {
    if a.number != 0 {
        tell_refused(rt, a.number);
        return;
    }
    tell(rt, b"ok ");
    tell_traffic(rt, a);
    tell(rt, b"\n");
}

fn do_list(rt: &impl Print, k: usize, t: &[Word; TABLE_WORDS], z: &[Word; STATE_WORDS]) {
    let r = engine::list(t, z, k);
    if r.number != 0 {
        tell_refused(rt, r.number);
        return;
    }
    tell_name(rt, r.name);
}

fn do_run(
    rt: &impl Print,
    limit: Steps,
    t: &[Word; TABLE_WORDS],
    z: &mut [Word; STATE_WORDS],
    rs: &mut [[Word; RECORD_WORDS]],
) {
    let r = tell_run(rt, t, z, rs, limit);
    if r.number != 0 {
        tell_refused(rt, r.number);
    }
}

// The records are counted anew where the state is the log's.
fn hold_judged(
    rt: &impl Print,
    r: Judged,
    records: usize,
    t: &[Word; TABLE_WORDS],
    z: &[Word; STATE_WORDS],
    rs: &mut [[Word; RECORD_WORDS]],
) -> usize {
    tell_judged(rt, r);
    if r.number != 0 {
        return records;
    }
    hold(t, z, rs)
}

fn do_fresh(
    rt: &impl Print,
    version: Word,
    records: usize,
    t: &[Word; TABLE_WORDS],
    z: &mut [Word; STATE_WORDS],
    rs: &mut [[Word; RECORD_WORDS]],
) -> usize {
    let number = engine::fresh(t, version, z);
    tell_done(rt, number);
    if number != 0 {
        return records;
    }
    hold(t, z, rs)
}

// The state that it works on is the call's own.
fn do_judge(rt: &impl Print, version: Word, log: &[u8], t: &[Word; TABLE_WORDS]) {
    tell_judged(rt, engine::judge(t, version, log));
}

// The buffer lent has so many bytes.
fn do_write(rt: &impl Print, room: usize, t: &[Word; TABLE_WORDS]) {
    let mut out = [0u8; TEXT_MOST];
    let n = room.min(TEXT_MOST);
    let r = engine::write(t, &mut out[..n]);
    if r.number != 0 {
        tell_refused(rt, r.number);
        return;
    }
    tell(rt, piece(&out, 0, r.length));
}

// The commands on a model: answers how many records are lent from now on.
fn on_model(
    rt: &impl Print,
    c: OnModel,
    records: usize,
    t: &[Word; TABLE_WORDS],
    z: &mut [Word; STATE_WORDS],
    rs: &mut [[Word; RECORD_WORDS]],
) -> usize {
    match c {
        OnModel::Fresh(version) => return do_fresh(rt, version, records, t, z, rs),
        OnModel::Replay(version, log) => {
            return hold_judged(rt, engine::replay(t, version, log, z), records, t, z, rs);
        }
        OnModel::Resume(log) => {
            return hold_judged(rt, engine::resume(t, z, log), records, t, z, rs);
        }
        OnModel::Record(p, k, value) => set_record(rt, rs, p, k, value),
        OnModel::Records(count) => {
            tell_ok(rt);
            return count;
        }
        OnModel::Step(name) => tell_answer(rt, engine::step(t, z, lending(rs, records), name)),
        OnModel::Post(name, values) => tell_done(rt, engine::post(t, z, name, values)),
        OnModel::List(k) => do_list(rt, k, t, z),
        OnModel::Run(limit) => do_run(rt, limit, t, z, lending(rs, records)),
        OnModel::Judge(version, log) => do_judge(rt, version, log, t),
        OnModel::State => report(rt, t, z),
        OnModel::SetState(place, value) => {
            set_word(rt, z, place, value);
            engine::figures(t, z, lending(rs, records));
        }
        OnModel::Figures => do_figures(rt, t, z, lending(rs, records)),
        OnModel::Write(room) => do_write(rt, room, t),
        OnModel::Check => do_check(rt, t),
        OnModel::Nested => do_nested(rt, t),
        OnModel::Again => do_again(rt, t),
    }
    records
}

// A command on a model, where there is one.
fn with_model(
    rt: &impl Print,
    c: OnModel,
    h: Held,
    t: &[Word; TABLE_WORDS],
    z: &mut [Word; STATE_WORDS],
    rs: &mut [[Word; RECORD_WORDS]],
) -> Held {
    let Some(records) = h else {
        no_model(rt);
        return h;
    };
    Some(on_model(rt, c, records, t, z, rs))
}

// Does what a line says.
pub(super) fn do_line(
    rt: &impl Print,
    line: &[u8],
    h: Held,
    t: &mut [Word; TABLE_WORDS],
    z: &mut [Word; STATE_WORDS],
    rs: &mut [[Word; RECORD_WORDS]],
) -> Held {
    let Some(c) = command_of(line) else {
        bad_line(rt);
        return h;
    };
    match c {
        Command::Read(text) => begin(rt, engine::read(text, t), h, t, z, rs),
        Command::Draw(drawing) => begin(rt, engine::draw(drawing, t), h, t, z, rs),
        Command::Clear => {
            t.fill(0);
            tell_ok(rt);
            Some(hold(t, z, rs))
        }
        Command::SetTable(place, value) => {
            set_word(rt, t, place, value);
            Some(hold(t, z, rs))
        }
        Command::Repair(log) => {
            tell_repaired(rt, log);
            h
        }
        Command::Diagnose(drawing) => {
            tell_diagnosed(rt, engine::diagnose(drawing));
            h
        }
        Command::Batch(items) => {
            do_batch(rt, items, h, t, z, rs);
            h
        }
        Command::OnModel(c) => with_model(rt, c, h, t, z, rs),
    }
}
