// The names of steps, and of some names the accepted one with a given ordinal.
#![tactic(auto)]

ghost use Rattle.std.specs.Prelude.{◌≡◌, [], ◌∷◌, ◌<◌};
ghost use Rattle.base_words.specs.Each.{joined};
ghost use Rattle.base_state.specs.Instances.{instances_of, queues_of};
ghost use Rattle.meaning.specs.Tuples.{empty};
ghost use Rattle.meaning.specs.Queues.{message_count};
ghost use Rattle.meaning.specs.Step.{element_named, move_named};
ghost use Rattle.step_names.specs.Names.{step_name, blank_name};
ghost use Rattle.step_names.specs.Parts.{scan, accepted_on, with_values, by_message, instance_for, below_for, ready_for, worked_for};

use base_kinds::moves::{Move, move_of};
use base_state::made_count;
use base_state::places::{COPY_WORDS, INSTANCES_WORDS, STATE_WORDS};
use base_table::places::{FIRST_POOL, POOL_WORDS, TABLE_WORDS};
use base_table::{element_at, kind_in, limit_of, mode_in, pool_of};
use base_words::{Word, tail, word};
use meaning::{Name, Tuple, empty_tuple};
use step_effects::copies::copy_before;
use step_expressions::templates::suits;
use step_fields::expect;
use step_queues::{message_at, oldest_of, queued_in};
use step_refusals::numbers::number_before;
use step_take::is_accepted;
use step_tokens::is_below_limit;

// The k-th of some names, or what is left of k behind them.
#[derive(Clone, Copy)]
pub struct Scan {
    pub found: bool,
    pub left: usize,
    pub name: Name,
}

// The name of a step that is given no values; a pool is named by its number.
pub fn name_at(t: &[Word], p: Word, i: Word, e: Word, f: Word, b: Word) -> Name
    ensures { result ≡ step_name t.now p i e f b empty }
{
    Name {
        pool: word(t, FIRST_POOL + POOL_WORDS * (p as usize)),
        instance: i,
        element: e,
        phase: f,
        branch: b,
        given: empty_tuple(),
    }
}

#[tactic(auto, unfolding(crate::specs::Parts::with_values))]
fn with_values(n: Name, g: Tuple) -> Name
    ensures { result ≡ with_values n g }
{
    Name { given: g, ..n }
}

fn blank_name() -> Name
    ensures { result ≡ blank_name }
{
    Name {
        pool: 0,
        instance: 0,
        element: 0,
        phase: 0,
        branch: 0,
        given: empty_tuple(),
    }
}

// None was found, and k is left.
pub fn passed(k: usize) -> Scan
    ensures { result ≡ scan [] k }
{
    Scan {
        found: false,
        left: k,
        name: blank_name(),
    }
}

// One name: it is the k-th where it is accepted and k is 0.
pub fn scan_name(t: &[Word; TABLE_WORDS], z: &[Word; STATE_WORDS], n: Name, k: usize) -> Scan
    ensures { result ≡ scan (accepted_on t.now z.now (n ∷ [])) k }
{
    if !is_accepted(t, z, n) {
        return passed(k);
    }
    if k == 0 {
        return Scan {
            found: true,
            left: 0,
            name: n,
        };
    }
    passed(k - 1)
}

fn queues_in(z: &[Word]) -> &[Word]
    ensures { result.now ≡ queues_of z.now }
{
    tail(z, INSTANCES_WORDS)
}

pub fn instances_in(z: &[Word]) -> &[Word]
    ensures { result.now ≡ instances_of z.now }
{
    if INSTANCES_WORDS <= z.len() {
        return &z[..INSTANCES_WORDS];
    }
    z
}

// The element that a name finds, its move, and the words of its instance before the step.
fn element_for(t: &[Word], n: Name) -> &[Word]
    ensures { result.now ≡ element_named t.now n }
{
    let p = pool_of(t, n.pool);
    element_at(t, p, n.element)
}

fn move_for(t: &[Word], n: Name) -> Move
    ensures { result ≡ move_named t.now n }
{
    let el = element_for(t, n);
    move_of(kind_in(el), mode_in(el), n.phase)
}

fn instance_for(t: &[Word], z: &[Word], n: Name) -> [Word; COPY_WORDS]
    ensures { result ≡ instance_for t.now (instances_of z.now) n }
{
    let p = pool_of(t, n.pool);
    let v = move_for(t, n);
    let s = instances_in(z);
    copy_before(s, v, p, n.instance)
}

// Whatever the values: 16, and 12 or 13 of the guard, do not refuse the step.
fn is_below(t: &[Word], z: &[Word], n: Name) -> bool
    ensures { result ≡ below_for t.now (instances_of z.now) n }
{
    let p = pool_of(t, n.pool);
    let v = move_for(t, n);
    let s = instances_in(z);
    is_below_limit(v, made_count(s, p), limit_of(t, p))
}

fn is_ready(t: &[Word], h: &[Word], n: Name) -> bool
    ensures { result ≡ ready_for t.now h.now n }
{
    let el = element_for(t, n);
    let v = move_for(t, n);
    number_before(el, h, v, n.branch) == 0
}

// What is expected where no values are given.
fn worked_for(t: &[Word], h: &[Word], n: Name) -> Tuple
    ensures { result ≡ worked_for t.now h.now n }
{
    let el = element_for(t, n);
    let v = move_for(t, n);
    let worked = expect(el, h, v, n.branch, empty_tuple());
    worked.tuple
}

// A message of a queue: "equal messages appear once, at the oldest". What is expected is w.
fn scan_message(
    t: &[Word; TABLE_WORDS],
    z: &[Word; STATE_WORDS],
    el: &[Word],
    w: Tuple,
    n: Name,
    m: Word,
    place: Word,
    k: usize,
) -> Scan
    requires { (place < message_count (queues_of z.now) m) × (el.now ≡ element_named t.now n) × (w ≡ worked_for t.now (instance_for t.now (instances_of z.now) n) n) }
    ensures { result ≡ scan (accepted_on t.now z.now (by_message (queues_of z.now) n m place)) k }
{
    let q = queues_in(z);
    let g = message_at(q, m, place);
    if !suits(el, n.branch, w, g) {
        return passed(k);
    }
    if oldest_of(q, m, g) != place {
        return passed(k);
    }
    scan_name(t, z, with_values(n, g), k)
}

// The messages of a queue, oldest first, of which w is expected.
fn scan_messages(
    t: &[Word; TABLE_WORDS],
    z: &[Word; STATE_WORDS],
    w: Tuple,
    n: Name,
    m: Word,
    k: usize,
) -> Scan
    requires { w ≡ worked_for t.now (instance_for t.now (instances_of z.now) n) n }
    ensures { result ≡ scan (accepted_on t.now z.now (joined (by_message (queues_of z.now) n m) (message_count (queues_of z.now) m))) k }
{
    let el = element_for(t, n);
    let count = queued_in(queues_in(z), m);
    let mut left = k;
    for place in 0..count {
        let r = scan_message(t, z, el, w, n, m, place, left);
        if r.found {
            return r;
        }
        left = r.left;
    }
    passed(left)
}

// The same, with what no message changes looked at first.
pub fn scan_queue(
    t: &[Word; TABLE_WORDS],
    z: &[Word; STATE_WORDS],
    n: Name,
    m: Word,
    k: usize,
) -> Scan
    ensures { result ≡ scan (accepted_on t.now z.now (joined (by_message (queues_of z.now) n m) (message_count (queues_of z.now) m))) k }
{
    if !is_below(t, z, n) {
        return passed(k);
    }
    let h = instance_for(t, z, n);
    if !is_ready(t, &h, n) {
        return passed(k);
    }
    let w = worked_for(t, &h, n);
    scan_messages(t, z, w, n, m, k)
}
