// A document around its root: blanks, comments and instructions, and nothing else; and its character data byte by byte.
#![tactic(auto, using(base_words::proofs::PickLaws::picks, std::proofs::lemmas::Bool::Decides::nat_tests), unfolding(crate::specs::Document::other_by, crate::specs::Document::other_of, crate::specs::Document::opens_data, crate::specs::Document::tag_for, crate::specs::Document::tag_at, crate::specs::Document::outside_at, crate::specs::Document::further, crate::specs::Document::outside))]

ghost use Rattle.std.specs.Prelude.{◌≡◌};
ghost use Rattle.xml_document.specs.Document.{other_of, opens_data, tag_at, outside_at, outside};

use base_bytes::byte;
use xml_markup::scanning::{begins_at, markup};
use xml_markup::spans::{opener, run};
use xml_markup::{Class, Markup, Opener};
use xml_scanner::Sort;

pub mod around;
pub mod decoding;

// What stands outside the root: an element at its `<`, something that is passed, nothing more, or a fault.
#[derive(Clone, Copy)]
pub enum Outside {
    Element(usize),
    On(usize),
    Nothing,
    Fault(usize),
}

fn other_of(m: Markup, p: usize) -> Outside
    ensures { result ≡ other_of m p }
{
    match m.sort {
        Sort::Comment | Sort::Instruction => Outside::On(m.next),
        Sort::Fault => Outside::Fault(m.next),
        Sort::StartTag
        | Sort::EmptyTag
        | Sort::EndTag
        | Sort::Text
        | Sort::Reference
        | Sort::Data
        | Sort::End => Outside::Fault(p),
    }
}

fn opens_data(text: &[u8], p: usize) -> bool
    ensures { result ≡ opens_data text.now p }
{
    begins_at(text, p, b"<![CDATA[")
}

fn tag_at(text: &[u8], p: usize) -> Outside
    ensures { result ≡ tag_at text.now p }
{
    match opener(text, p) {
        Opener::Start => Outside::Element(p),
        Opener::End => Outside::Fault(p),
        Opener::Other => {
            if opens_data(text, p) {
                return Outside::Fault(p);
            }
            other_of(markup(text, p), p)
        }
    }
}

// What stands outside at a place, no blank first.
pub fn outside_at(text: &[u8], p: usize) -> Outside
    ensures { result ≡ outside_at text.now p }
{
    if text.len() <= p {
        return Outside::Nothing;
    }
    match byte(text, p) {
        b'<' => tag_at(text, p),
        b'&' => other_of(markup(text, p), p),
        _ => Outside::Fault(p),
    }
}

// The first element outside from a place on, that there is none, or the fault before it.
pub fn outside_from(text: &[u8], p: usize) -> Outside
    ensures { result ≡ outside text.now p }
{
    let mut at = p;
    // Stays a while: each comment or instruction is passed whole.
    while at < text.len() {
        let o = outside_at(text, run(Class::Blanks, text, at));
        let Outside::On(q) = o else {
            return o;
        };
        at = q;
    }
    Outside::Nothing
}
