// "An element inside an element, up to 16 deep, is skipped whole." Skipping an element and skipping its content call each other, with remaining depth and bytes falling.
#![tactic(auto, using(base_words::proofs::PickLaws::picks, std::proofs::lemmas::Bool::Decides::nat_tests), unfolding(crate::specs::Skipping::part_by, crate::specs::Skipping::part_of, crate::specs::Skipping::part_for, crate::specs::Skipping::part_at, crate::specs::Skipping::tag_by, crate::specs::Skipping::tag_of, crate::specs::Skipping::by_tag))]

ghost use Rattle.std.specs.Prelude.{◌≡◌};
ghost use Rattle.xml_markup.specs.Markup.{markup};
ghost use Rattle.xml_skip.specs.Skipping.{part_of, part_at, tag_of, element_at, content_at, skipped};

use xml_markup::scanning::markup;
use xml_markup::spans::{opener, same_name};
use xml_markup::{Markup, Opener};
use xml_scanner::Sort;

// Where a text is at fault.
#[derive(Clone, Copy)]
pub struct Fault {
    pub place: usize,
}

// What stands at a place of an element's content: an element; its own end tag; something else that is passed; a fault.
#[derive(Clone, Copy)]
pub enum Part {
    Element,
    Close(usize),
    On(usize),
    Fault(usize),
}

// A tag that opens content, an empty one, or a fault.
#[derive(Clone, Copy)]
pub enum Tag {
    Open(usize),
    Empty(usize),
    Fault(usize),
}

// An element and those inside it: so deep at most.
const DEPTH: usize = 16;

fn part_of(m: Markup) -> Part
    ensures { result ≡ part_of m }
{
    let q = m.next;
    match m.sort {
        Sort::EndTag => Part::Close(q),
        Sort::End | Sort::Fault => Part::Fault(q),
        Sort::StartTag
        | Sort::EmptyTag
        | Sort::Text
        | Sort::Reference
        | Sort::Comment
        | Sort::Data
        | Sort::Instruction => Part::On(q),
    }
}

// The content of the element whose tag is at `outer`.
pub fn part_at(text: &[u8], outer: usize, p: usize) -> Part
    ensures { result ≡ part_at text.now outer p }
{
    match opener(text, p) {
        Opener::Start => Part::Element,
        Opener::End => {
            if same_name(text, outer, p) {
                return part_of(markup(text, p));
            }
            Part::Fault(p)
        }
        Opener::Other => part_of(markup(text, p)),
    }
}

// What the markup at a place is as an element's tag.
pub fn tag_of(m: Markup, p: usize) -> Tag
    ensures { result ≡ tag_of m p }
{
    let q = m.next;
    match m.sort {
        Sort::StartTag => Tag::Open(q),
        Sort::EmptyTag => Tag::Empty(q),
        Sort::End | Sort::Fault => Tag::Fault(q),
        Sort::EndTag
        | Sort::Text
        | Sort::Reference
        | Sort::Comment
        | Sort::Data
        | Sort::Instruction => Tag::Fault(p),
    }
}

// Goes from an element's `<` to the place behind the element, or to the fault. `depth` is how many elements deep it may be, itself counted.
#[cycle(skipping)]
pub fn skip_element(text: &[u8], p: usize, depth: usize) -> Result<usize, Fault>
    ensures { result ≡ element_at text.now p depth }
{
    if depth == 0 {
        return Err(Fault { place: p });
    }
    match tag_of(markup(text, p), p) {
        Tag::Open(q) => skip_content(text, p, q, depth - 1),
        Tag::Empty(q) => Ok(q),
        Tag::Fault(q) => Err(Fault { place: q }),
    }
}

// Goes from a place in the content of the element whose tag is at `outer` to the place behind that element's end tag.
#[cycle(skipping)]
pub fn skip_content(text: &[u8], outer: usize, p: usize, depth: usize) -> Result<usize, Fault>
    ensures { result ≡ content_at text.now outer p depth }
{
    let mut at = p;
    // Stays a while: each part is passed whole.
    while at < text.len() {
        match part_at(text, outer, at) {
            Part::Element => {
                at = skip_element(text, at, depth)?;
            }
            Part::Close(q) => {
                return Ok(q);
            }
            Part::On(q) => {
                at = q;
            }
            Part::Fault(q) => {
                return Err(Fault { place: q });
            }
        }
    }
    Err(Fault { place: text.len() })
}

// Goes from an element's `<` to the place behind the element, which is up to 16 deep.
pub fn skip(text: &[u8], p: usize) -> Result<usize, Fault>
    ensures { result ≡ skipped text.now p }
{
    skip_element(text, p, DEPTH)
}

// The same from the tag at that place, which is read already.
pub fn skip_from(tag: Tag, text: &[u8], p: usize) -> Result<usize, Fault>
    requires { tag ≡ tag_of (markup text.now p) p }
    ensures { result ≡ skipped text.now p }
{
    match tag {
        Tag::Open(q) => skip_content(text, p, q, DEPTH - 1),
        Tag::Empty(q) => Ok(q),
        Tag::Fault(q) => Err(Fault { place: q }),
    }
}
