// The first id that stands twice: ids are put in order, many at a time, and those before them are looked for there.
ghost use Rattle.std.specs.Prelude.{◌≡◌, true, false, List, ℕ, ◌<◌, ◌≤◌, length};
ghost use Rattle.base_words.specs.Seek.{seek};
ghost use Rattle.xml_markup.specs.Ahead.{key_of, key_at, Rising, Kept, More, With};
ghost use Rattle.draw_faults.specs.Amiss.{is_repeated};
ghost use Rattle.draw_faults.specs.Once.{IdIs};

use super::ids::{is_read, is_repeated};
use base_bytes::piece;
use draw_links::attribute_of;
use draw_things::things::Note;
use xml_markup::shelf::{PLACES, keep, kept_at};

// How many things are looked at together.
const TOGETHER: Note = 64;

const SHELF: usize = 64;

// Puts the id of thing k among the first m.
fn shelve(text: &[u8], w: &[Note], k: Note, v: &mut [usize], m: usize) -> Option<usize>
    requires { m ≤ length v.old }
    ensures { (q : ℕ) → result ≡ Some q → Rising (key_at text.now) v.old m → More (key_at text.now) v.old m v.new q × ((u : List ℕ) → IdIs text.now w.now k u → With (key_at text.now) (key_of u) v.old m v.new q) }
{
    if !is_read(w, k) {
        return Some(m);
    }
    let a = attribute_of(text, w, k, b"id");
    let Some((from, to)) = a else {
        return Some(m);
    };
    if v.len() <= m {
        return None;
    }
    if keep(text, v, m, from, to) {
        return Some(m + 1);
    }
    None
}

// Whether the id of thing y may be one of the first m.
fn is_kept(text: &[u8], w: &[Note], y: Note, v: &[usize], m: usize) -> bool
    requires { m ≤ length v.now }
    ensures { result ≡ false → Rising (key_at text.now) v.now m → (u : List ℕ) → IdIs text.now w.now y u → Kept (key_at text.now) v.now m (key_of u) → ⊥ }
{
    if !is_read(w, y) {
        return false;
    }
    let a = attribute_of(text, w, y, b"id");
    let Some((from, to)) = a else {
        return false;
    };
    kept_at(text, v, m, piece(text, from, to)) != PLACES
}

fn none_kept(text: &[u8], w: &[Note], b: Note, v: &[usize], m: usize) -> bool
    requires { m ≤ length v.now }
    ensures { result ≡ true → Rising (key_at text.now) v.now m → (y : ℕ) → y < b → (u : List ℕ) → IdIs text.now w.now y u → Kept (key_at text.now) v.now m (key_of u) → ⊥ }
{
    for y in 0..b {
        if is_kept(text, w, y, v, m) {
            return false;
        }
    }
    true
}

fn are_shelved(text: &[u8], w: &[Note], b: Note, e: Note, v: &mut [usize]) -> bool
    ensures { result ≡ true → (k : ℕ) → b ≤ k → k < e → is_repeated text.now w.now k ≡ false }
{
    let mut m: usize = 0;
    for k in b..e {
        let t = shelve(text, w, k, v, m);
        let Some(q) = t else {
            return false;
        };
        m = q;
    }
    none_kept(text, w, b, v, m)
}

// Whether no id of the things from b up to e stands before them, or twice among them.
fn are_new(text: &[u8], w: &[Note], b: Note, e: Note) -> bool
    ensures { result ≡ true → (k : ℕ) → b ≤ k → k < e → is_repeated text.now w.now k ≡ false }
{
    let mut v = [0; SHELF];
    are_shelved(text, w, b, e, &mut v)
}

fn end_of(b: Note, s: Note, n: Note) -> Note
    requires { (b < n) × (0 < s) }
    ensures { (b < result) × (result ≤ n) }
{
    if n - b <= s { n } else { b + s }
}

// The first of n things whose id one before it has; n where none is.
pub fn first_repeated(text: &[u8], w: &[Note], n: Note) -> Note
    ensures { result ≡ seek (is_repeated text.now w.now) n }
{
    let mut b: Note = 0;
    let mut s = TOGETHER;
    // Stays a while: many things are passed at once, and fewer where that fails.
    while b < n {
        let e = end_of(b, s, n);
        if are_new(text, w, b, e) {
            b = e;
        } else if 1 < s {
            s = s / 2;
        } else if is_repeated(text, w, b) {
            return b;
        } else {
            b += 1;
        }
    }
    b
}
