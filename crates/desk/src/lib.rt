// The calls that take steps, on the list of pool records that the desk lends: each takes it apart, has the engine's call on words work on them, and puts back what that left.
#![tactic(auto)]

ghost use Rattle.std.specs.Prelude.{◌≡◌};
ghost use Rattle.state_figures.specs.Figures.{Figured};
ghost use Rattle.state_records.specs.Records.{triples};
ghost use Rattle.step_poll.specs.Poll.{Polling};
ghost use Rattle.engine.specs.Engine.{Stepped, RanTo};
ghost use Rattle.engine.specs.Desk.{AtDesk, stepped_at, ran_at, polled_at, figured_to};
ghost use Rattle.desk.specs.Lent.{AtFour, stepped_four, ran_four, polled_four, figured_four};

use base_state::places::STATE_WORDS;
use base_table::places::TABLE_WORDS;
use base_words::Word;
use engine::Ran;
use meaning::{Answer, Name};
use state_records::{Four, Record, four_of, lent_count, put_back, take_apart, words_of};
use step_poll::{POLL_WORDS, Polled};
use step_run::Steps;

#[derive(Clone, Copy)]
pub struct StepLeft {
    pub answer: Answer,
    pub four: Four,
}

#[derive(Clone, Copy)]
pub struct RunLeft {
    pub ran: Ran,
    pub four: Four,
}

#[derive(Clone, Copy)]
pub struct PollLeft {
    pub polled: Polled,
    pub four: Four,
}

#[derive(Clone, Copy)]
pub struct CountLeft {
    pub number: Word,
    pub four: Four,
}

fn step_four(t: &[Word; TABLE_WORDS], z: &mut [Word; STATE_WORDS], f: Four, n: Name) -> StepLeft
    ensures { record { done = record { answer = result.answer; state = z.new }; four = result.four } ≡ stepped_four t.now z.old f n }
{
    let mut ws = words_of(f);
    let count = lent_count(f);
    let answer = engine::step(t, z, &mut ws[..count], n);
    let four = four_of(&ws, f.count);
    StepLeft {
        answer: answer,
        four: four,
    }
}

// Takes a named step: as `engine::step`, and the record of its own pool alone follows.
pub fn step(
    t: &[Word; TABLE_WORDS],
    z: &mut [Word; STATE_WORDS],
    rs: &mut [Record],
    n: Name,
) -> Answer
    ensures { record { done = record { answer = result; state = z.new }; records = triples rs.new } ≡ stepped_at t.now z.old (triples rs.old) n }
{
    let left = step_four(t, z, take_apart(rs), n);
    put_back(rs, left.four);
    left.answer
}

fn run_four(t: &[Word; TABLE_WORDS], z: &mut [Word; STATE_WORDS], f: Four, limit: Steps) -> RunLeft
    ensures { record { done = record { number = result.ran.number; steps = result.ran.steps; left = result.ran.left; state = z.new }; four = result.four } ≡ ran_four t.now z.old f limit }
{
    let mut ws = words_of(f);
    let count = lent_count(f);
    let ran = engine::run(t, z, &mut ws[..count], limit);
    let four = four_of(&ws, f.count);
    RunLeft {
        ran: ran,
        four: four,
    }
}

// Takes the first listed step again and again, as `engine::run`; the records are those of the last state.
pub fn run(
    t: &[Word; TABLE_WORDS],
    z: &mut [Word; STATE_WORDS],
    rs: &mut [Record],
    limit: Steps,
) -> Ran
    ensures { record { done = record { number = result.number; steps = result.steps; left = result.left; state = z.new }; records = triples rs.new } ≡ ran_at t.now z.old (triples rs.old) limit }
{
    let left = run_four(t, z, take_apart(rs), limit);
    put_back(rs, left.four);
    left.ran
}

fn poll_four(
    t: &[Word; TABLE_WORDS],
    z: &mut [Word; STATE_WORDS],
    f: Four,
    items: &[Word; POLL_WORDS],
    count: usize,
) -> PollLeft
    ensures { record { done = record { number = result.polled.number; accepted = result.polled.accepted; state = z.new }; four = result.four } ≡ polled_four t.now z.old f items.now count }
{
    let mut ws = words_of(f);
    let lent = lent_count(f);
    let polled = engine::poll(t, z, &mut ws[..lent], items, count);
    let four = four_of(&ws, f.count);
    PollLeft {
        polled: polled,
        four: four,
    }
}

// Takes named steps and posts, as `engine::poll`; the records are those of the accepted part.
pub fn poll(
    t: &[Word; TABLE_WORDS],
    z: &mut [Word; STATE_WORDS],
    rs: &mut [Record],
    items: &[Word; POLL_WORDS],
    count: usize,
) -> Polled
    ensures { record { done = record { number = result.number; accepted = result.accepted; state = z.new }; records = triples rs.new } ≡ polled_at t.now z.old (triples rs.old) items.now count }
{
    let left = poll_four(t, z, take_apart(rs), items, count);
    put_back(rs, left.four);
    left.polled
}

fn figures_four(t: &[Word; TABLE_WORDS], z: &[Word; STATE_WORDS], f: Four) -> CountLeft
    ensures { record { done = result.number; four = result.four } ≡ figured_four t.now z.now f }
{
    let mut ws = words_of(f);
    let count = lent_count(f);
    let number = engine::figures(t, z, &mut ws[..count]);
    let four = four_of(&ws, f.count);
    CountLeft {
        number: number,
        four: four,
    }
}

// Sets the records by counting, as `engine::figures`.
pub fn figures(t: &[Word; TABLE_WORDS], z: &[Word; STATE_WORDS], rs: &mut [Record]) -> Word
    ensures { record { number = result; records = triples rs.new } ≡ figured_to t.now z.now (triples rs.old) }
{
    let left = figures_four(t, z, take_apart(rs));
    put_back(rs, left.four);
    left.number
}
