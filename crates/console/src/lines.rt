// What a line asks for: its words have one blank between them, and the first is the keyword; a text, a drawing, a log or a batch is what stands behind its
// blank, whatever it is.
use super::arguments::{number_in, place_in, value_in, values_in};
use super::desk::KEPT;
use base_state::places::STATE_WORDS;
use base_state::versions::PRESENT;
use base_table::places::TABLE_WORDS;
use base_words::Word;
use base_words::counts::TEXT_MOST;
use meaning::{Name, Tuple};
use state_figures::RECORD_WORDS;
use step_run::Steps;

const BLANK: u8 = 32;

// The most words of a line that is no text.
const WORDS: usize = 7;

// A batch may have no items; whether each of them is a step or a post is seen when they are read.
#[derive(Clone, Copy)]
pub(super) enum Command<'a> {
    Read(&'a [u8]),
    Draw(&'a [u8]),
    Clear,
    SetTable(usize, Word),
    Repair(&'a [u8]),
    Diagnose(&'a [u8]),
    Batch(Option<&'a [u8]>),
    OnModel(OnModel<'a>),
}

// The commands that want a model.
#[derive(Clone, Copy)]
pub(super) enum OnModel<'a> {
    Fresh(Word),
    Replay(Word, &'a [u8]),
    Resume(&'a [u8]),
    Record(usize, usize, Word),
    Records(usize),
    Step(Name),
    Post(Word, Tuple),
    List(usize),
    Run(Steps),
    Judge(Word, &'a [u8]),
    State,
    SetState(usize, Word),
    Figures,
    Write(usize),
    Check,
    Nested,
    Again,
}

// A version, a blank and a log.
fn versioned(text: &[u8]) -> Option<(Word, &[u8])> {
    let mut parts = text.splitn(2, |b| *b == BLANK);
    let version = number_in(parts.next()?)? as Word;
    Some((version, parts.next()?))
}

// The commands that have a text behind their blank.
fn with_text(line: &[u8]) -> Option<Command<'_>> {
    if let Some(text) = line.strip_prefix(b"read ") {
        return Some(Command::Read(text));
    }
    if let Some(drawing) = line.strip_prefix(b"draw ") {
        return Some(Command::Draw(drawing));
    }
    if let Some(log) = line.strip_prefix(b"repair ") {
        return Some(Command::Repair(log));
    }
    if let Some(drawing) = line.strip_prefix(b"diagnose ") {
        return Some(Command::Diagnose(drawing));
    }
    if let Some(items) = line.strip_prefix(b"batch ") {
        return Some(Command::Batch(Some(items)));
    }
    Some(Command::OnModel(with_log(line)?))
}

// The commands that have a log there.
fn with_log(line: &[u8]) -> Option<OnModel<'_>> {
    if let Some(log) = line.strip_prefix(b"resume ") {
        return Some(OnModel::Resume(log));
    }
    if let Some(text) = line.strip_prefix(b"replay ") {
        let (version, log) = versioned(text)?;
        return Some(OnModel::Replay(version, log));
    }
    let (version, log) = versioned(line.strip_prefix(b"judge ")?)?;
    Some(OnModel::Judge(version, log))
}

fn name_in(words: &[&[u8]]) -> Option<Name> {
    let [pool, instance, element, phase, branch, values] = words else {
        return None;
    };
    Some(Name {
        pool: number_in(pool)? as Word,
        instance: number_in(instance)? as Word,
        element: number_in(element)? as Word,
        phase: number_in(phase)? as Word,
        branch: number_in(branch)? as Word,
        given: values_in(values)?,
    })
}

// The commands that are words.
fn of_words<'a>(words: &[&'a [u8]]) -> Option<Command<'a>> {
    match words {
        [b"clear"] => Some(Command::Clear),
        [b"table", place, value] => Some(Command::SetTable(
            place_in(place, TABLE_WORDS)?,
            value_in(value)?,
        )),
        [b"batch"] => Some(Command::Batch(None)),
        _ => Some(Command::OnModel(on_state(words)?)),
    }
}

// Those on a state and its records, then those on a table.
fn on_state<'a>(words: &[&'a [u8]]) -> Option<OnModel<'a>> {
    match words {
        [b"step", name @ ..] => Some(OnModel::Step(name_in(name)?)),
        [b"post", name, values] => Some(OnModel::Post(
            number_in(name)? as Word,
            values_in(values)?,
        )),
        [b"list", k] => Some(OnModel::List(number_in(k)? as usize)),
        [b"run", limit] => Some(OnModel::Run(number_in(limit)?)),
        [b"state"] => Some(OnModel::State),
        [b"state", place, value] => Some(OnModel::SetState(
            place_in(place, STATE_WORDS)?,
            value_in(value)?,
        )),
        [b"figures"] => Some(OnModel::Figures),
        [b"record", pool, place, value] => Some(OnModel::Record(
            place_in(pool, KEPT)?,
            place_in(place, RECORD_WORDS)?,
            value_in(value)?,
        )),
        [b"records", count] => Some(OnModel::Records(place_in(count, KEPT + 1)?)),
        _ => on_table(words),
    }
}

fn on_table<'a>(words: &[&'a [u8]]) -> Option<OnModel<'a>> {
    match words {
        [b"fresh"] => Some(OnModel::Fresh(PRESENT)),
        [b"fresh", version] => Some(OnModel::Fresh(number_in(version)? as Word)),
        [b"write"] => Some(OnModel::Write(TEXT_MOST)),
        [b"write", room] => Some(OnModel::Write(number_in(room)? as usize)),
        [b"check"] => Some(OnModel::Check),
        [b"nested"] => Some(OnModel::Nested),
        [b"again"] => Some(OnModel::Again),
        _ => None,
    }
}

// The command of a line; none where it is a bad one.
pub(super) fn command_of(line: &[u8]) -> Option<Command<'_>> {
    if let Some(c) = with_text(line) {
        return Some(c);
    }
    let mut words: [&[u8]; WORDS] = [&[]; WORDS];
    let mut count = 0;
    for word in line.split(|b| *b == BLANK) {
        *words.get_mut(count)? = word;
        count += 1;
    }
    of_words(words.get(..count)?)
}
