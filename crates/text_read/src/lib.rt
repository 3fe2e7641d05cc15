// A text read into a lent table. It is read twice: the first pass judges it, so that a refusal changes nothing; the second fills the table.
#![tactic(auto)]

ghost use Rattle.std.specs.Prelude.{◌≡◌, ℕ, true, map, eqb, take, Ok};
ghost use Rattle.base_words.specs.Each.{each};
ghost use Rattle.base_words.specs.Words.{at};
ghost use Rattle.check_verdict.specs.Verdict.{model_words, lowest_in};
ghost use Rattle.text_ends.specs.Room.{room_in};
ghost use Rattle.text_read.specs.Notation.{model, table_of, rewritten, has_room, answer_for, read_into};

use base_table::places::TABLE_WORDS;
use base_words::counts::TEXT_MOST;
use base_words::numbers::{ACCEPTED, CHECK_BROKEN, NONE_FREE, TOO_LONG};
use base_words::{Word, clear, word};
use check_verdict::{MODEL_WORDS, lowest_in};
use text_ends::{JUDGED_WORDS, ROOM, head};
use text_passes::pass;
use text_readers::Refusal;
use text_rewrite::rewrite;

// A number given back; beside 2 and 3 the place, beside 4 the lowest check broken.
#[repr(C)]
#[derive(Clone, Copy)]
pub struct Reading {
    pub number: Word,
    pub beside: usize,
}

// The table of a text that is not refused.
fn fill(text: &[u8], t: &mut [Word; TABLE_WORDS])
    ensures { (q : ℕ) → (model text.now).end ≡ Ok q → each has_room (model text.now).value ≡ true → t.new ≡ table_of (map rewritten (model text.now).value) }
{
    clear(t);
    // It ends as the first pass did, which was not refused.
    let _ = pass(true, text, t);
    rewrite(t);
}

impl From<Refusal> for Reading {
    ghost from_gives = { λ r z. z ≡ record { number = r.number; beside = r.place } };

    fn from(r: Refusal) -> Reading {
        Reading {
            number: r.number,
            beside: r.place,
        }
    }
}

// The lowest check broken, by what the first pass kept.
fn lowest_kept(m: &[Word]) -> Word
    ensures { result ≡ lowest_in (take model_words m.now) }
{
    lowest_in(head(m, MODEL_WORDS))
}

// The answer to a model by what the first pass kept of it: 4, 28 where a pool has no room for what its endSnds become, or 0.
pub fn answer_for(m: &[Word]) -> Reading
    ensures { result ≡ answer_for (lowest_in (take model_words m.now)) (eqb (at m.now room_in) 0) }
{
    let broken = lowest_kept(m);
    if broken != 0 {
        return Reading {
            number: CHECK_BROKEN,
            beside: broken as usize,
        };
    }
    if word(m, ROOM) == 0 {
        return Reading {
            number: ACCEPTED,
            beside: 0,
        };
    }
    Reading {
        number: NONE_FREE,
        beside: 0,
    }
}

// Reads a text into the table: 1 to 4 or 28, and the table stays; else 0, and every word of the table is the model's.
pub fn read_into(text: &[u8], t: &mut [Word; TABLE_WORDS]) -> Reading
    ensures { record { number = result.number; beside = result.beside; table = t.new } ≡ read_into text.now t.old }
{
    if text.len() > TEXT_MOST {
        return Reading {
            number: TOO_LONG,
            beside: 0,
        };
    }
    let mut m = [0; JUDGED_WORDS];
    if let Err(r) = pass(false, text, &mut m) {
        return Reading::from(r);
    }
    let answer = answer_for(&m);
    if answer.number != ACCEPTED {
        return answer;
    }
    fill(text, t);
    answer
}
