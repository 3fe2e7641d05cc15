// An entry of a log: the step or the post that a line names.
#![tactic(auto, using(base_words::proofs::PickLaws::picks, std::proofs::lemmas::Bool::Decides::nat_tests), unfolding(crate::specs::Entries::number_up_to, crate::specs::Entries::is_small, crate::specs::Entries::value_in, crate::specs::Entries::number_before, crate::specs::Entries::added, crate::specs::Entries::message_from, crate::specs::Entries::all_right, crate::specs::Entries::entry_of, crate::specs::Entries::five_placed, crate::specs::Entries::number_at, crate::specs::Entries::number_place, crate::specs::Entries::post_entry))]

ghost use Rattle.std.specs.Prelude.{◌≡◌};
ghost use Rattle.meaning.specs.Tuples.{empty};
ghost use Rattle.log_lines.specs.Entries.{given, no_entry, number_up_to, is_small, value_in, number_before, added, values_from, message_from, traffic_from, five_placed, all_right, name_of, step_entry, post_name, post_entry, entry_of};

use base_bytes::{byte, piece, same};
use base_words::{Word, one_more, put};
use meaning::{Name, Tuple, empty_tuple};
use text_numerals::{Number, number_of};
use xml_markup::Class;
use xml_markup::scanning::begins_at;
use xml_markup::spans::{after, run};

// The greatest number of a line that is no value.
const NUMBER_MOST: Word = 65535;

// The bytes of `post` and its blank.
const POST: usize = 5;

// A number with its mark behind it: whether it is one, its value, and the place behind the mark.
// No Option: the line is read on from that place whether it is one or not.
#[derive(Clone, Copy)]
pub struct Numbered {
    pub right: bool,
    pub value: Word,
    pub next: usize,
}

// Whether what stands there is right, and the values.
#[derive(Clone, Copy)]
pub struct Given {
    pub right: bool,
    pub tuple: Tuple,
}

// A message's name and values.
#[derive(Clone, Copy)]
pub struct Message {
    pub right: bool,
    pub name: Word,
    pub tuple: Tuple,
}

// The five numbers of a step.
#[derive(Clone, Copy)]
pub struct Placed {
    pub pool: Numbered,
    pub instance: Numbered,
    pub element: Numbered,
    pub phase: Numbered,
    pub branch: Numbered,
}

// Whether it is a line, whether of a post, and the step's name; a post has its message's name in place of the pool.
// No Option: who takes the lines of a log takes a name from each of them.
#[derive(Clone, Copy)]
pub struct Entry {
    pub right: bool,
    pub posts: bool,
    pub name: Name,
}

fn number_up_to(c: u8, line: &[u8], p: usize) -> Number
    ensures { result ≡ number_up_to c line.now p }
{
    number_of(piece(line, p, run(Class::Value(c), line, p)))
}

fn is_small(n: Number) -> bool
    ensures { result ≡ is_small n }
{
    match n {
        Number::Value(v) => v <= NUMBER_MOST,
        Number::TooLarge | Number::NotANumber => false,
    }
}

fn value_in(n: Number) -> Word
    ensures { result ≡ value_in n }
{
    match n {
        Number::Value(v) => v,
        Number::TooLarge | Number::NotANumber => 0,
    }
}

// A number with the byte c behind it.
fn number_before(c: u8, line: &[u8], p: usize) -> Numbered
    ensures { result ≡ number_before c line.now p }
{
    let n = number_up_to(c, line, p);
    let end = run(Class::Value(c), line, p);
    Numbered {
        right: is_small(n) && end < line.len(),
        value: value_in(n),
        next: after(line, end),
    }
}

// One value more: the first four are kept, and all are counted.
fn added(g: Tuple, v: Word) -> Tuple
    ensures { result ≡ added g v }
{
    let n = g.length;
    let mut values = g.values;
    put(&mut values, n as usize, v);
    Tuple {
        length: one_more(n),
        values,
    }
}

fn values_given(right: bool, g: Tuple) -> Given
    ensures { result ≡ given right g }
{
    Given { right, tuple: g }
}

// No values, and whether that is right.
fn none(right: bool) -> Given
    ensures { result ≡ given right empty }
{
    values_given(right, empty_tuple())
}

// The values up to the end of the line.
fn values_from(line: &[u8], p: usize) -> Given
    ensures { result ≡ values_from line.now p }
{
    if line.len() <= p {
        return none(true);
    }
    let mut g = empty_tuple();
    let mut q = p;
    for _n in 0..line.len() {
        let Number::Value(v) = number_up_to(b',', line, q) else {
            return none(false);
        };
        let end = run(Class::Value(b','), line, q);
        let more = added(g, v);
        if line.len() <= end {
            return values_given(true, more);
        }
        g = more;
        q = end + 1;
    }
    none(false)
}

fn message_from(line: &[u8], p: usize) -> Message
    ensures { result ≡ message_from line.now p }
{
    let name = number_before(b':', line, p);
    let values = values_from(line, name.next);
    Message {
        right: name.right && values.right,
        name: name.value,
        tuple: values.tuple,
    }
}

// What was sent or consumed, from a place on, and the values that name the step: those of a message consumed.
fn traffic_from(line: &[u8], p: usize) -> Given
    ensures { result ≡ traffic_from line.now p }
{
    if same(piece(line, p, line.len()), b"-") {
        return none(true);
    }
    let sign = byte(line, p);
    let m = message_from(line, after(line, p));
    if sign == b'!' {
        return none(m.right);
    }
    if sign == b'?' {
        return values_given(m.right, m.tuple);
    }
    none(false)
}

// The five numbers of a step, each with a blank behind it.
fn numbers_of(line: &[u8]) -> Placed
    ensures { result ≡ five_placed line.now }
{
    let pool = number_before(b' ', line, 0);
    let instance = number_before(b' ', line, pool.next);
    let element = number_before(b' ', line, instance.next);
    let phase = number_before(b' ', line, element.next);
    let branch = number_before(b' ', line, phase.next);
    Placed {
        pool,
        instance,
        element,
        phase,
        branch,
    }
}

fn all_right(p: Placed) -> bool
    ensures { result ≡ all_right p }
{
    p.pool.right && p.instance.right && p.element.right && p.phase.right && p.branch.right
}

fn name_of(p: Placed, given: Tuple) -> Name
    ensures { result ≡ name_of p given }
{
    Name {
        pool: p.pool.value,
        instance: p.instance.value,
        element: p.element.value,
        phase: p.phase.value,
        branch: p.branch.value,
        given,
    }
}

fn no_entry() -> Entry
    ensures { result ≡ no_entry }
{
    Entry {
        right: false,
        posts: false,
        name: Name {
            pool: 0,
            instance: 0,
            element: 0,
            phase: 0,
            branch: 0,
            given: empty_tuple(),
        },
    }
}

fn step_entry(line: &[u8]) -> Entry
    ensures { result ≡ step_entry line.now }
{
    let p = numbers_of(line);
    let g = traffic_from(line, p.branch.next);
    if all_right(p) && g.right {
        return Entry {
            right: true,
            posts: false,
            name: name_of(p, g.tuple),
        };
    }
    no_entry()
}

fn post_name(m: Message) -> Name
    ensures { result ≡ post_name m }
{
    Name {
        pool: m.name,
        instance: 0,
        element: 0,
        phase: 0,
        branch: 0,
        given: m.tuple,
    }
}

fn post_entry(line: &[u8]) -> Entry
    ensures { result ≡ post_entry line.now }
{
    let m = message_from(line, POST);
    if m.right {
        return Entry {
            right: true,
            posts: true,
            name: post_name(m),
        };
    }
    no_entry()
}

// The step or the post that a line names.
pub fn entry_of(line: &[u8]) -> Entry
    ensures { result ≡ entry_of line.now }
{
    if begins_at(line, 0, b"post ") {
        return post_entry(line);
    }
    step_entry(line)
}
