// The first rule that is broken, and the first thing that breaks it.
ghost use Rattle.std.specs.Prelude.{◌≡◌, ◌<◌};
ghost use Rattle.draw_numbers.specs.Who.{has_participants, has_pool};
ghost use Rattle.draw_diagnose.specs.Rules.{first_breaking, is_broken, first_broken, broken_by_all, broken_in};

use super::Broken;
use super::rules::{NO_POOL, RULES_OF_THINGS, TOO_MANY, breaks};
use base_words::Word;
use draw_numbers::who::{has_participants, has_pool};
use draw_things::things::{Note, ROOM, place_of};

fn first_breaking(rule: Word, text: &[u8], w: &[Note], n: Note) -> Note
    ensures { result ≡ first_breaking rule text.now w.now n }
{
    (0..n).find(|&k| breaks(rule, text, w, n, k)).unwrap_or(n)
}

fn is_broken(text: &[u8], w: &[Note], n: Note, r: Word) -> bool
    requires { r < 16 }
    ensures { result ≡ is_broken text.now w.now n r }
{
    first_breaking(r + 1, text, w, n) < n
}

fn first_broken(text: &[u8], w: &[Note], n: Note) -> Word
    ensures { result ≡ first_broken text.now w.now n }
{
    for r in 0..RULES_OF_THINGS {
        if is_broken(text, w, n, r) {
            return r;
        }
    }
    RULES_OF_THINGS
}

fn has_pools(w: &[Note], n: Note) -> bool
    ensures { result ≡ has_pool (has_participants w.now n) w.now n }
{
    has_pool(has_participants(w, n), w, n)
}

fn broken_by_all(w: &[Note], n: Note) -> Broken
    ensures { result ≡ broken_by_all w.now n }
{
    if !has_pools(w, n) {
        return Broken {
            rule: NO_POOL,
            place: place_of(w, 0),
        };
    }
    if n as usize > ROOM {
        return Broken {
            rule: TOO_MANY,
            place: place_of(w, 0),
        };
    }
    Broken { rule: 0, place: 0 }
}

// The first rule that is broken, and the place of the first thing that breaks it; 0 where none is.
pub fn broken_in(text: &[u8], w: &[Note], n: Note) -> Broken
    ensures { result ≡ broken_in text.now w.now n }
{
    let r = first_broken(text, w, n);
    if r < RULES_OF_THINGS {
        let k = first_breaking(r + 1, text, w, n);
        return Broken {
            rule: r + 1,
            place: place_of(w, k),
        };
    }
    broken_by_all(w, n)
}
