// The model checks of one pool, by its summary.
#![tactic(auto)]

ghost use Rattle.std.specs.Prelude.{◌≡◌, not, ◌&&◌};
ghost use Rattle.check_answers.specs.Answers.{one_start_by, start_receives_by, edge_by, edges_meet_by, tasks_differ_by, receives_by, sends_by, not_sent_there_by, one_default_by, binds_differ_by, kept_by};

use base_kinds::moves::{START, START_RCV};
use base_words::counts::{EDGES, NAMES, TASKS};
use base_words::{Word, word};
use check_model::{
    BINDS_DIFFER, EDGES_MEET, NAMES_APART, ONE_DEFAULT, ONE_START, START_RECEIVES, TASKS_DIFFER,
    edge_right,
};
use check_summary::{
    BINDS_FROM, DEFAULTS_FROM, ENTRIES_FROM, EXITS_FROM, FIRSTS_FROM, RECEIVED_FROM, SENT_FROM,
    STARTS_FROM, TASKS_FROM,
};
use check_tally::once_in;

#[tactic(auto, unfolding(crate::specs::Answers::one_start_by))]
fn one_start(s: &[Word]) -> bool
    ensures { result ≡ one_start_by s.now }
{
    let starts = word(s, STARTS_FROM as usize + START as usize);
    let receiving = word(s, STARTS_FROM as usize + START_RCV as usize);
    starts as usize + receiving as usize == 1
}

#[tactic(auto, using(base_words::proofs::PickLaws::picks), unfolding(crate::specs::Answers::start_receives_by))]
fn start_receives(limit: Word, s: &[Word]) -> bool
    ensures { result ≡ start_receives_by limit s.now }
{
    limit == 0 || word(s, STARTS_FROM as usize + START as usize) == 0
}

#[tactic(auto, unfolding(crate::specs::Answers::edge_by))]
fn edge_meets(s: &[Word], k: Word) -> bool
    ensures { result ≡ edge_by s.now k }
{
    let x = word(s, EXITS_FROM as usize + (k as usize + 1));
    let n = word(s, ENTRIES_FROM as usize + (k as usize + 1));
    let f = word(s, FIRSTS_FROM as usize + (k as usize + 1));
    edge_right(x, n, f)
}

fn edges_meet(s: &[Word]) -> bool
    ensures { result ≡ edges_meet_by s.now }
{
    (0..EDGES).all(|k| edge_meets(s, k))
}

#[tactic(auto, unfolding(crate::specs::Answers::tasks_differ_by))]
fn tasks_differ(s: &[Word]) -> bool
    ensures { result ≡ tasks_differ_by s.now }
{
    once_in(s, TASKS_FROM, TASKS)
}

// Whether the pool receives the name m.
#[tactic(auto, unfolding(crate::specs::Answers::receives_by))]
pub fn receives(s: &[Word], m: Word) -> bool
    ensures { result ≡ receives_by s.now m }
{
    word(s, RECEIVED_FROM as usize + (m as usize + 1)) > 0
}

#[tactic(auto, unfolding(crate::specs::Answers::sends_by))]
fn sends(s: &[Word], m: Word) -> bool
    ensures { result ≡ sends_by s.now m }
{
    word(s, SENT_FROM as usize + (m as usize + 1)) > 0
}

fn apart(s: &[Word], m: Word) -> bool
    ensures { result ≡ not (receives_by s.now m && sends_by s.now m) }
{
    !(receives(s, m) && sends(s, m))
}

fn not_sent_there(s: &[Word]) -> bool
    ensures { result ≡ not_sent_there_by s.now }
{
    (0..NAMES).all(|m| apart(s, m))
}

#[tactic(auto, unfolding(crate::specs::Answers::one_default_by))]
fn one_default(s: &[Word]) -> bool
    ensures { result ≡ one_default_by s.now }
{
    word(s, DEFAULTS_FROM as usize + 1) == 0
}

#[tactic(auto, unfolding(crate::specs::Answers::binds_differ_by))]
fn binds_differ(s: &[Word]) -> bool
    ensures { result ≡ binds_differ_by s.now }
{
    word(s, BINDS_FROM as usize + 1) == 0
}

// Whether a pool keeps check k by itself; check 1 is of all pools, and so is a part of check 6.
#[tactic(auto, using(base_words::proofs::PickLaws::picks), unfolding(crate::specs::Answers::kept_by))]
pub fn keeps(limit: Word, s: &[Word], k: Word) -> bool
    ensures { result ≡ kept_by limit s.now k }
{
    match k {
        ONE_START => one_start(s),
        START_RECEIVES => start_receives(limit, s),
        EDGES_MEET => edges_meet(s),
        TASKS_DIFFER => tasks_differ(s),
        NAMES_APART => not_sent_there(s),
        ONE_DEFAULT => one_default(s),
        BINDS_DIFFER => binds_differ(s),
        _ => true,
    }
}
