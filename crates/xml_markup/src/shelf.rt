// Names of a text in their own order, each kept as a word that says where it stands.
ghost use Rattle.std.specs.Prelude.{◌≡◌, true, false, ◌+◌, ◌-◌, ◌<◌, ◌≤◌, ltb, length};
ghost use Rattle.base_words.specs.Words.{at, part};
ghost use Rattle.xml_markup.specs.Ahead.{kept_name, key_of, key_at, Rising, Kept, Between, Inserted, More, With};

use super::Bounds;
use base_bytes::piece;

// A word holds two places below this one; as a place it is none.
pub const PLACES: usize = 4294967296;

// Whether a byte comes before another one.
fn is_less(a: u8, b: u8) -> bool
    ensures { (result ≡ ltb a b) × (a < 256) × (b < 256) }
{
    a < b
}

// Whether a name comes before another: the shorter one does, and of two as long as each other the one whose byte is smaller where they differ.
fn is_before(a: &[u8], b: &[u8]) -> bool
    ensures { result ≡ ltb (key_of a.now) (key_of b.now) }
{
    if a.len() != b.len() {
        return a.len() < b.len();
    }
    for i in 0..a.len() {
        if a[i] != b[i] {
            return is_less(a[i], b[i]);
        }
    }
    false
}

// The name that a word says.
fn kept_name(text: &[u8], w: usize) -> &[u8]
    ensures { result.now ≡ kept_name text.now w }
{
    piece(text, w / PLACES, w % PLACES)
}

// The half of the places in which a name is still looked for.
fn halve(text: &[u8], v: &[usize], n: usize, name: &[u8], b: Bounds) -> Bounds
    requires { (b.low < b.high) × (n ≤ length v.now) × Between (key_at text.now) v.now n (key_of name.now) b.low b.high }
    ensures { (result.high - result.low < b.high - b.low) × Between (key_at text.now) v.now n (key_of name.now) result.low result.high }
{
    let middle = b.low + (b.high - b.low) / 2;
    if is_before(kept_name(text, v[middle]), name) {
        return Bounds {
            low: middle + 1,
            ..b
        };
    }
    Bounds { high: middle, ..b }
}

// Where a name stands among the first n, or should stand.
fn place_of(text: &[u8], v: &[usize], n: usize, name: &[u8]) -> usize
    requires { n ≤ length v.now }
    ensures { Between (key_at text.now) v.now n (key_of name.now) result result }
{
    if n == 0 {
        return 0;
    }
    let last = n - 1;
    if is_before(kept_name(text, v[last]), name) {
        return n;
    }
    let mut b = Bounds { low: 0, high: last };
    // Stays a while: `partition_point` asks once more where one place is left.
    while b.low < b.high {
        b = halve(text, v, last, name, b);
    }
    b.low
}

// Whether a name is the one at its place.
fn stands_at(text: &[u8], v: &[usize], n: usize, r: usize, name: &[u8]) -> bool
    requires { n ≤ length v.now }
    ensures { result ≡ false → r < n → key_at text.now (at v.now r) ≡ key_of name.now → ⊥ }
{
    if r < n {
        return kept_name(text, v[r]) == name;
    }
    false
}

// Where the name of a word begins.
fn begin(w: usize) -> usize
    ensures { result < 4294967296 }
{
    w / PLACES
}

fn begin_at(v: &[usize], r: usize) -> usize
    ensures { result < 4294967296 }
{
    if r < v.len() {
        return begin(v[r]);
    }
    0
}

// Where the one of the first n begins that is this name, or nowhere.
pub fn kept_at(text: &[u8], v: &[usize], n: usize, name: &[u8]) -> usize
    requires { n ≤ length v.now }
    ensures { (result ≤ 4294967296) × (result ≡ 4294967296 → Rising (key_at text.now) v.now n → Kept (key_at text.now) v.now n (key_of name.now) → ⊥) }
{
    let r = place_of(text, v, n, name);
    if stands_at(text, v, n, r, name) {
        return begin_at(v, r);
    }
    PLACES
}

fn is_between(w: usize, from: usize, to: usize) -> bool {
    let p = begin(w);
    from <= p && p < to
}

// How many of the first n begin between two places.
pub fn count_between(v: &[usize], n: usize, from: usize, to: usize) -> usize
    requires { n ≤ length v.now }
    ensures { result ≤ n }
{
    v[..n].iter().filter(|w| is_between(**w, from, to)).count()
}

fn insert(v: &mut [usize], n: usize, r: usize, w: usize)
    requires { (r ≤ n) × (n < length v.old) }
    ensures { Inserted v.old n r w v.new }
{
    v.copy_within(r..n, r + 1);
    v[r] = w;
}

// Puts a name among the first n, where it is none of them.
pub fn keep(text: &[u8], v: &mut [usize], n: usize, from: usize, to: usize) -> bool
    requires { n < length v.old }
    ensures { (result ≡ true → Rising (key_at text.now) v.old n → More (key_at text.now) v.old n v.new (n + 1) × With (key_at text.now) (key_of (part text.now from to)) v.old n v.new (n + 1)) × (result ≡ false → v.new ≡ v.old) }
{
    if PLACES <= from || PLACES <= to {
        return false;
    }
    let name = piece(text, from, to);
    let r = place_of(text, v, n, name);
    if stands_at(text, v, n, r, name) {
        return false;
    }
    insert(v, n, r, from * PLACES + to);
    true
}
