// A tag read ahead: whether its names are new is asked of many at a time.
ghost use Rattle.std.specs.Prelude.{◌≡◌, true, false, List, ℕ, ◌≤◌, length, drop, Some, None};
ghost use Rattle.base_words.specs.Words.{at, part};
ghost use Rattle.xml_markup.specs.declared.Whole.TheVariants.{Attribute};
ghost use Rattle.xml_markup.specs.Tokens.{whole, is_named, found};
ghost use Rattle.xml_markup.specs.Markup.{scan_from};
ghost use Rattle.xml_markup.specs.Ahead.{key_of, key_at, Rising, Kept, More, With, ReadTo, Ahead, Sure, is_faulty_else, tried};

use super::leaping::{leap, leap_begin};
use super::shelf::{PLACES, count_between, keep, kept_at};
use super::tokens::{moved, reserved, speaks, whole};
use super::{Cursor, Reach, Scan, Whole};
use base_bytes::{byte, piece};
use xml_characters::is_control;

// The most names that are looked at together, and how many at first: few tags have more.
const NAMES: usize = 384;

pub const FEW: usize = 24;

fn is_faulty_else(w: Whole, text: &[u8], start: usize, mark: usize) -> bool
    ensures { result ≡ is_faulty_else w text.now start mark }
{
    match w {
        Whole::Nothing => false,
        Whole::Attribute => false,
        Whole::Target => reserved(text, start, mark),
        Whole::Reference => !speaks(text, mark),
    }
}

// What a byte does, where the name that it shows to be whole is new.
pub fn tried(text: &[u8], start: usize, c: Cursor, i: usize) -> Scan
    ensures { result ≡ tried text.now start c i }
{
    if text.len() <= i {
        return Scan::Fault(i);
    }
    let b = text[i];
    let s = c.state;
    let mark = c.mark;
    if is_faulty_else(whole(s, b), piece(text, 0, i), start, mark) {
        return Scan::Fault(mark);
    }
    if is_control(b) {
        return Scan::Fault(i);
    }
    moved(c, b, i, i + 1)
}

// Puts the name that the byte at a place shows to be whole among the first n: how many are kept then, or nothing where it is none more.
fn take_name(
    text: &[u8],
    c: Cursor,
    i: usize,
    most: usize,
    v: &mut [usize],
    n: usize,
) -> Option<usize>
    requires { n ≤ length v.old }
    ensures { ((m : ℕ) → result ≡ Some m → Rising (key_at text.now) v.old n → More (key_at text.now) v.old n v.new m × (whole c.state (at text.now i) ≡ Attribute → With (key_at text.now) (key_of (part text.now c.mark i)) v.old n v.new m)) × (result ≡ None → v.new ≡ v.old) }
{
    let s = c.state;
    let w = whole(s, byte(text, i));
    let Whole::Attribute = w else {
        return Some(n);
    };
    if most <= n || v.len() <= n {
        return None;
    }
    if keep(text, v, n, c.mark, i) {
        return Some(n + 1);
    }
    None
}

// Where the one of the first n of `all` begins that the byte at a place shows to be whole, or nowhere.
fn met_at(all: &[u8], text: &[u8], c: Cursor, i: usize, v: &[usize], n: usize) -> usize
    requires { n ≤ length v.now }
    ensures { (result ≤ 4294967296) × (result ≡ 4294967296 → Rising (key_at all.now) v.now n → (name : List ℕ) → Kept (key_at all.now) v.now n (key_of name) → is_named text.now name c i ≡ false) }
{
    let s = c.state;
    let w = whole(s, byte(text, i));
    let Whole::Attribute = w else {
        return PLACES;
    };
    kept_at(all, v, n, piece(text, c.mark, i))
}

// Where the first one of the first n of `all` begins that the tag at `start` has too, or nowhere.
fn first_met(all: &[u8], text: &[u8], start: usize, v: &[usize], n: usize) -> usize
    requires { n ≤ length v.now }
    ensures { result ≡ 4294967296 → Rising (key_at all.now) v.now n → (name : List ℕ) → Kept (key_at all.now) v.now n (key_of name) → found text.now name start ≡ None }
{
    let mut first = PLACES;
    let b = leap_begin(text, start);
    let mut c = b.cursor;
    let mut i = b.place;
    // Stays a while: a byte is passed with those behind it that show nothing.
    while i < text.len() {
        first = first.min(met_at(all, text, c, i, v, n));
        let a = moved(c, byte(text, i), i, i + 1);
        let Scan::On(next) = a else {
            return first;
        };
        let l = leap(next, text, i + 1);
        let d = l.cursor;
        c = d;
        i = l.place;
    }
    first
}

// Reads a tag ahead as long as its names are different, which are kept; it is read rightly where no name before is one of them.
fn read_ahead(text: &[u8], start: usize, c: Cursor, p: usize, most: usize, v: &mut [usize]) -> Reach
    requires { ReadTo text.now start c p }
    ensures { Ahead text.now start c p v.new result.most result.cursor result.place }
{
    let mut here = c;
    let mut i = p;
    let mut n: usize = 0;
    // Stays a while: a byte is passed with those behind it that show nothing.
    while i < text.len() {
        let a = tried(text, start, here, i);
        let Scan::On(next) = a else {
            return Reach {
                cursor: here,
                place: i,
                most: n,
            };
        };
        let t = take_name(text, here, i, most, v, n);
        let Some(m) = t else {
            return Reach {
                cursor: here,
                place: i,
                most: n,
            };
        };
        n = m;
        let l = leap(next, text, i + 1);
        let d = l.cursor;
        here = d;
        i = l.place;
    }
    Reach {
        cursor: here,
        place: i,
        most: n,
    }
}

// Reads ahead up to `most` names of a tag, kept in the words lent; nothing where one is not new, and next time those before it, without the one at p, which is judged by itself then.
fn read_with(text: &[u8], start: usize, c: Cursor, p: usize, most: usize, v: &mut [usize]) -> Reach
    requires { ReadTo text.now start c p }
    ensures { Sure text.now start c p result.cursor result.place }
{
    let r = read_ahead(text, start, c, p, most, v);
    let first = first_met(text, piece(text, 0, p), start, v, r.most);
    if first != PLACES {
        return Reach {
            cursor: c,
            place: p,
            most: count_between(v, r.most, p, first),
        };
    }
    let d = r.cursor;
    if r.most == FEW {
        return Reach {
            cursor: d,
            place: r.place,
            most: NAMES,
        };
    }
    Reach {
        cursor: d,
        place: r.place,
        most,
    }
}

fn read_few(text: &[u8], start: usize, c: Cursor, p: usize, most: usize) -> Reach
    requires { ReadTo text.now start c p }
    ensures { Sure text.now start c p result.cursor result.place }
{
    let mut v = [0; FEW];
    read_with(text, start, c, p, most, &mut v)
}

fn read_many(text: &[u8], start: usize, c: Cursor, p: usize, most: usize) -> Reach
    requires { ReadTo text.now start c p }
    ensures { Sure text.now start c p result.cursor result.place }
{
    let mut v = [0; NAMES];
    read_with(text, start, c, p, most, &mut v)
}

// Reads ahead up to `most` names of a tag from a place on where one is being read; few of them need few words.
fn read_some(text: &[u8], start: usize, c: Cursor, p: usize, most: usize) -> Reach
    requires { ReadTo text.now start c p }
    ensures { Sure text.now start c p result.cursor result.place }
{
    let s = c.state;
    let w = whole(s, 0);
    let Whole::Attribute = w else {
        return Reach {
            cursor: c,
            place: p,
            most,
        };
    };
    if most <= FEW {
        return read_few(text, start, c, p, most);
    }
    read_many(text, start, c, p, most)
}

// Reads a tag ahead as far as its names are new.
pub fn read_new(text: &[u8], start: usize, c: Cursor, p: usize, most: usize) -> Reach
    requires { ReadTo text.now start c p }
    ensures { Sure text.now start c p result.cursor result.place }
{
    let mut last = p;
    let mut here = c;
    let mut many = most;
    // Stays a while: each round reads as far as it gets.
    while last < text.len() {
        let r = read_some(text, start, here, last, many);
        if r.place <= last {
            return r;
        }
        last = r.place;
        many = r.most;
        let d = r.cursor;
        here = d;
    }
    Reach {
        cursor: here,
        place: last,
        most: many,
    }
}
