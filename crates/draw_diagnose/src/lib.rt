// A drawing diagnosed: its number, the rule or check that is broken, and the place of the first thing that breaks it.
#![tactic(auto)]

ghost use Rattle.std.specs.Prelude.{◌≡◌};
ghost use Rattle.draw_walk.specs.Walk.{Walk};
ghost use Rattle.draw_read.specs.Drawings.{settled_by, things_of, walked_text, answered};
ghost use Rattle.draw_diagnose.specs.Rules.{broken_in};
ghost use Rattle.draw_diagnose.specs.Diagnosis.{told, diagnosed_by, diagnosed};

use base_table::places::TABLE_WORDS;
use base_words::Word;
use base_words::numbers::{CHECK_BROKEN, NONE_FREE, NOT_RUN};
use draw_kinds::roles;
use draw_links::links;
use draw_read::draw_into;
use draw_things::things::{BLOCK_WORDS, Note};
use draw_walk::walk;
use found::broken_in;
use seats::seat_at;
use text_read::Reading;

pub mod found;
pub mod rules;
pub mod seats;

// A rule, and the place of what breaks it.
#[derive(Clone, Copy)]
pub struct Broken {
    pub rule: Word,
    pub place: Word,
}

// The number of a drawing, the rule or check that is broken, and a place.
#[repr(C)]
#[derive(Clone, Copy)]
pub struct Diagnosis {
    pub number: Word,
    pub rule: usize,
    pub place: usize,
}

fn told(number: Word, rule: usize, place: usize) -> Diagnosis
    ensures { result ≡ told number rule place }
{
    Diagnosis {
        number: number,
        rule: rule,
        place: place,
    }
}

fn told_of(number: Word, text: &[u8], w: &[Note], n: Note) -> Diagnosis
    ensures { result ≡ told number (broken_in text.now w.now n).rule (broken_in text.now w.now n).place }
{
    let b = broken_in(text, w, n);
    told(number, b.rule as usize, b.place as usize)
}

fn diagnose_by(a: Reading, text: &[u8], w: &[Note], n: Note) -> Diagnosis
    ensures { result ≡ diagnosed_by a text.now w.now n }
{
    if a.number == NOT_RUN {
        return told_of(a.number, text, w, n);
    }
    if a.number == CHECK_BROKEN {
        return told(a.number, a.beside, seat_at(a.beside, text, w, n));
    }
    if a.number == NONE_FREE {
        return told(a.number, 0, seat_at(0, text, w, n));
    }
    told(a.number, 0, a.beside)
}

fn settle(text: &[u8], w: &mut [Note], n: Note)
    ensures { w.new ≡ settled_by text.now n w.old }
{
    links(text, w, n);
    roles(w, n);
}

fn diagnose_things(a: Reading, text: &[u8]) -> Diagnosis
    ensures { result ≡ diagnosed_by a text.now (things_of text.now) (walked_text text.now).count }
{
    let mut w = [0; BLOCK_WORDS];
    let met = walk(text, &mut w);
    let n = met.count;
    settle(text, &mut w, n);
    diagnose_by(a, text, &w, n)
}

fn answer_to(text: &[u8]) -> Reading
    ensures { result ≡ answered text.now }
{
    let mut table: [Word; TABLE_WORDS] = [0; TABLE_WORDS];
    draw_into(text, &mut table)
}

// The number that `draw` gives to a drawing; with 21 the rule that is broken, with 4 the check; and the place of the first thing that breaks it.
pub fn diagnose(text: &[u8]) -> Diagnosis
    ensures { result ≡ diagnosed text.now }
{
    diagnose_things(answer_to(text), text)
}
