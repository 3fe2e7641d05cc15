// What an element says, byte by byte, each with its place.
ghost use Rattle.std.specs.Prelude.{◌≡◌, ◌-◌};
ghost use Rattle.draw_conditions.specs.Saying.{forward, plain_step, is_skipped, tag_step, step_by, markup_step, skip_by, skip_markup, skip_step, text_step, section_step, step_at, said, seen};

use super::outline::outline;
use base_bytes::byte;
use xml_document::decoding::{decoded_at, plain_at};
use xml_markup::Scan;
use xml_markup::scanning::begins_at;
use xml_markup::spans::is_called;
use xml_scanner::Sort;

// A place: in a CDATA section or not; so many elements deep in what is skipped.
#[derive(Clone, Copy)]
pub struct Spot {
    pub section: bool,
    pub deep: u8,
    pub at: usize,
}

// What is skipped is so deep at most.
const DEPTH: u8 = 16;

// One step: a byte that is said, with its place and the spot behind it; something that is passed; or the end.
#[derive(Clone, Copy)]
pub enum Step {
    Byte(u8, usize, Spot),
    On(Spot),
    End,
}

// A byte that is said, with its place and the spot behind it.
#[derive(Clone, Copy)]
pub struct Seen {
    pub byte: u8,
    pub place: usize,
    pub next: Spot,
}

#[tactic(auto, unfolding(crate::specs::Saying::forward))]
fn forward(text: &[u8], i: usize, n: usize) -> usize
    ensures { result ≡ forward text.now i n }
{
    if text.len() <= i {
        return text.len();
    }
    if text.len() - i <= n {
        return text.len();
    }
    i + n
}

#[tactic(auto, unfolding(crate::specs::Saying::plain_step))]
fn plain_step(text: &[u8], section: bool, i: usize) -> Step
    ensures { result ≡ plain_step text.now section i }
{
    let d = plain_at(text, i);
    Step::Byte(
        d.byte,
        i,
        Spot {
            section,
            deep: 0,
            at: d.next,
        },
    )
}

fn is_skipped(text: &[u8], i: usize) -> bool
    ensures { result ≡ is_skipped text.now i }
{
    is_called(text, i, b"documentation") || is_called(text, i, b"extensionElements")
}

#[tactic(auto, using(base_words::proofs::PickLaws::picks), unfolding(crate::specs::Saying::tag_step))]
fn tag_step(text: &[u8], deep: u8, i: usize, q: usize) -> Step
    ensures { result ≡ tag_step text.now deep i q }
{
    if is_skipped(text, i) {
        return Step::On(Spot {
            section: false,
            deep,
            at: q,
        });
    }
    Step::Byte(
        0,
        i,
        Spot {
            section: false,
            deep: 0,
            at: q,
        },
    )
}

#[tactic(auto, unfolding(crate::specs::Saying::step_by))]
fn step_by(sort: Sort, text: &[u8], i: usize, q: usize) -> Step
    ensures { result ≡ step_by sort text.now i q }
{
    let behind = Spot {
        section: false,
        deep: 0,
        at: q,
    };
    match sort {
        Sort::StartTag => tag_step(text, 1, i, q),
        Sort::EmptyTag => tag_step(text, 0, i, q),
        Sort::EndTag => Step::End,
        Sort::Text => Step::End,
        Sort::Reference => {
            let d = decoded_at(text, i);
            Step::Byte(d.byte, i, behind)
        }
        Sort::Comment => Step::On(behind),
        Sort::Data => Step::On(Spot {
            section: true,
            deep: 0,
            at: forward(text, i, 9),
        }),
        Sort::Instruction => Step::On(behind),
        Sort::End => Step::End,
        Sort::Fault => Step::End,
    }
}

fn markup_step(text: &[u8], i: usize) -> Step
    ensures { result ≡ markup_step text.now i }
{
    let o = outline(text, i);
    let Scan::Past(sort, q) = o else {
        return Step::End;
    };
    step_by(sort, text, i, q)
}

#[tactic(auto, using(base_words::proofs::PickLaws::picks), unfolding(crate::specs::Saying::text_step))]
fn text_step(text: &[u8], i: usize) -> Step
    ensures { result ≡ text_step text.now i }
{
    let b = byte(text, i);
    if b == b'<' {
        return markup_step(text, i);
    }
    if b == b'&' {
        return markup_step(text, i);
    }
    plain_step(text, false, i)
}

#[tactic(auto, using(base_words::proofs::PickLaws::picks), unfolding(crate::specs::Saying::section_step))]
fn section_step(text: &[u8], i: usize) -> Step
    ensures { result ≡ section_step text.now i }
{
    if begins_at(text, i, b"]]>") {
        return Step::On(Spot {
            section: false,
            deep: 0,
            at: forward(text, i, 3),
        });
    }
    plain_step(text, true, i)
}

fn less(deep: u8) -> u8
    ensures { result ≡ deep - 1 }
{
    if deep == 0 { 0 } else { deep - 1 }
}

#[tactic(auto, using(base_words::proofs::PickLaws::picks), unfolding(crate::specs::Saying::skip_by))]
fn skip_by(sort: Sort, deep: u8, q: usize) -> Step
    ensures { result ≡ skip_by sort deep q }
{
    let same = Spot {
        section: false,
        deep,
        at: q,
    };
    match sort {
        Sort::StartTag => {
            if deep < DEPTH {
                return Step::On(Spot {
                    section: false,
                    deep: deep + 1,
                    at: q,
                });
            }
            Step::End
        }
        Sort::EmptyTag => Step::On(same),
        Sort::EndTag => Step::On(Spot {
            section: false,
            deep: less(deep),
            at: q,
        }),
        Sort::Text => Step::On(same),
        Sort::Reference => Step::On(same),
        Sort::Comment => Step::On(same),
        Sort::Data => Step::On(same),
        Sort::Instruction => Step::On(same),
        Sort::End => Step::End,
        Sort::Fault => Step::End,
    }
}

fn skip_markup(text: &[u8], deep: u8, i: usize) -> Step
    ensures { result ≡ skip_markup text.now deep i }
{
    let o = outline(text, i);
    let Scan::Past(sort, q) = o else {
        return Step::End;
    };
    skip_by(sort, deep, q)
}

#[tactic(auto, using(base_words::proofs::PickLaws::picks), unfolding(crate::specs::Saying::skip_step))]
fn skip_step(text: &[u8], deep: u8, i: usize) -> Step
    ensures { result ≡ skip_step text.now deep i }
{
    if byte(text, i) == b'<' {
        return skip_markup(text, deep, i);
    }
    Step::On(Spot {
        section: false,
        deep,
        at: forward(text, i, 1),
    })
}

#[tactic(auto, using(base_words::proofs::PickLaws::picks), unfolding(crate::specs::Saying::step_at))]
fn step_at(text: &[u8], s: Spot) -> Step
    ensures { result ≡ step_at text.now s }
{
    if text.len() <= s.at {
        return Step::End;
    }
    if s.section {
        return section_step(text, s.at);
    }
    if 0 < s.deep {
        return skip_step(text, s.deep, s.at);
    }
    text_step(text, s.at)
}

// What is said next from a spot on.
pub(super) fn look(text: &[u8], s: Spot) -> Option<Seen>
    ensures { said text.now s ≡ seen text.now result }
{
    let mut at = s;
    // Stays a while: each step tells where the next one begins.
    while at.at < text.len() {
        let step = step_at(text, at);
        match step {
            Step::Byte(byte, place, next) => {
                return Some(Seen { byte, place, next });
            }
            Step::On(next) => {
                at = next;
            }
            Step::End => {
                return None;
            }
        }
    }
    None
}

// Past what says nothing: the same is said from there, and looked at without passing it again.
pub(super) fn arrive(text: &[u8], s: Spot) -> Spot
    ensures { said text.now result ≡ said text.now s }
{
    let mut at = s;
    // Stays a while: each step tells where the next one begins.
    while at.at < text.len() {
        let step = step_at(text, at);
        let Step::On(next) = step else {
            return at;
        };
        at = next;
    }
    at
}
