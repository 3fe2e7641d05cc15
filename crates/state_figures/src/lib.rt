// Figures for the route desk: instances made, unfinished and finished, one record for each pool.
#![tactic(auto)]

ghost use Rattle.std.specs.Prelude.{◌≡◌, true, length};
ghost use Rattle.base_table.specs.Table.{pool_count, pool_of};
ghost use Rattle.state_figures.specs.Figures.{is_finished, finished, record_of, counted, same_record, agree, record_after, updated, followed, desk_number, records_left, Figured, figured};

use base_state::places::DEFINED;
use base_state::{instance_at, made_count};
use base_table::{pool_count, pool_of};
use base_words::numbers::{ACCEPTED, NOT_COUNTED};
use base_words::{Word, less_one, wide};
use check_limits::zeros::{less, zero_words};

// Made, unfinished, finished.
pub const RECORD_WORDS: usize = 3;

// Whether an instance has no token and no task count left.
pub fn is_finished(h: &[Word]) -> bool
    ensures { result ≡ is_finished h.now }
{
    zero_words(h, DEFINED)
}

// How many instances of pool p are finished.
fn finished_count(s: &[Word], p: Word) -> Word
    ensures { result ≡ finished s.now p }
{
    let mut count: Word = 0;
    for i in 0..made_count(s, p) {
        count += Word::from(is_finished(instance_at(s, p, i)));
    }
    count
}

// The record of pool p, by counting.
fn record_of(s: &[Word], p: Word) -> [Word; RECORD_WORDS]
    ensures { result ≡ record_of s.now p }
{
    let made = made_count(s, p);
    let done = finished_count(s, p);
    [made, less(made, wide(done)), done]
}

// Whether a lent record is what the count gives; that it has three words is in its type, and callers need it as a fact.
fn record_agrees(r: [Word; RECORD_WORDS], s: &[Word], p: Word) -> bool
    ensures { (result ≡ same_record r (record_of s.now p)) × (result ≡ true → r ≡ record_of s.now p) }
{
    r == record_of(s, p)
}

// Whether the lent records are as many as the pools, each what the count gives.
fn records_agree(rs: &[[Word; RECORD_WORDS]], t: &[Word], s: &[Word]) -> bool
    ensures { (result ≡ agree rs.now t.now s.now) × (result ≡ true → rs.now ≡ counted t.now s.now) }
{
    let pools = pool_count(t);
    if rs.len() != wide(pools) {
        return false;
    }
    for p in 0..pools {
        if !record_agrees(rs[p as usize], s, p) {
            return false;
        }
    }
    true
}

// The number of a call that is lent records: that of table and state, then 26.
pub fn desk_number(rs: &[[Word; RECORD_WORDS]], t: &[Word], s: &[Word], number: Word) -> Word
    ensures { (result ≡ desk_number number rs.now t.now s.now) × (result ≡ 0 → rs.now ≡ counted t.now s.now) }
{
    if number != ACCEPTED {
        return number;
    }
    if !records_agree(rs, t, s) {
        return NOT_COUNTED;
    }
    ACCEPTED
}

// One record after a step that left it with so many instances made, its own with nothing or not.
fn record_after(r: [Word; RECORD_WORDS], made: Word, done: bool) -> [Word; RECORD_WORDS]
    ensures { result ≡ record_after r made done }
{
    if done {
        let left = less_one(r[1]);
        return [made, left, less(made, wide(left))];
    }
    [made, less(made, wide(r[2])), r[2]]
}

// After a step of instance i of pool p: its record alone, from that instance alone.
fn update(rs: &mut [[Word; RECORD_WORDS]], s: &[Word], p: Word, i: Word)
    ensures { rs.new ≡ updated rs.old s.now p i }
{
    let made = made_count(s, p);
    let done = is_finished(instance_at(s, p, i));
    if wide(p) < rs.len() {
        rs[p as usize] = record_after(rs[p as usize], made, done);
    }
}

// After a step of instance i of the pool with that number, by the number that it gave back: a refused one changes no record.
pub fn follow(
    rs: &mut [[Word; RECORD_WORDS]],
    t: &[Word],
    s: &[Word],
    pool: Word,
    i: Word,
    number: Word,
)
    ensures { rs.new ≡ followed number rs.old s.now (pool_of t.now pool) i }
{
    if number == ACCEPTED {
        update(rs, s, pool_of(t, pool), i);
    }
}

// Sets the records by counting, where they are as many as the pools.
fn count(rs: &mut [[Word; RECORD_WORDS]], t: &[Word], s: &[Word])
    requires { length rs.old ≡ pool_count t.now }
    ensures { rs.new ≡ counted t.now s.now }
{
    for p in 0..pool_count(t) {
        rs[p as usize] = record_of(s, p);
    }
}

// After a call that took many steps, by the number that its blocks were refused with.
pub fn recount(rs: &mut [[Word; RECORD_WORDS]], t: &[Word], s: &[Word], number: Word)
    requires { number ≡ 0 → length rs.old ≡ pool_count t.now }
    ensures { rs.new ≡ records_left number rs.old t.now s.now }
{
    if number == ACCEPTED {
        count(rs, t, s);
    }
}

// Sets the records by counting: the number of table and state, then 26 for a wrong number of records, and they stay; else 0.
pub fn figure(rs: &mut [[Word; RECORD_WORDS]], t: &[Word], s: &[Word], number: Word) -> Word
    ensures { record { number = result; records = rs.new } ≡ figured number rs.old t.now s.now }
{
    if number != ACCEPTED {
        return number;
    }
    if rs.len() != wide(pool_count(t)) {
        return NOT_COUNTED;
    }
    count(rs, t, s);
    ACCEPTED
}
