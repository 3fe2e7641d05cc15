// What stands at a place directly in the log, the trace or an event.
#![tactic(auto, using(base_words::proofs::PickLaws::picks, std::proofs::lemmas::Bool::Decides::nat_tests), unfolding(crate::specs::Inside::ends_at, crate::specs::Inside::closing, crate::specs::Inside::between, crate::specs::Inside::inside_at))]

ghost use Rattle.std.specs.Prelude.{◌≡◌};
ghost use Rattle.log_text.specs.Inside.{ends_at, closing, between, inside_at};

use super::Inside;
use xml_document::{Outside, outside_at};
use xml_markup::Opener;
use xml_markup::spans::opener;
use xml_skip::{Part, part_at};

fn ends_at(o: Opener) -> bool
    ensures { result ≡ ends_at o }
{
    matches!(o, Opener::End)
}

fn closing(part: Part, p: usize) -> Inside
    ensures { result ≡ closing part p }
{
    match part {
        Part::Element | Part::On(_) => Inside::Fault(p),
        Part::Close(q) => Inside::Close(q),
        Part::Fault(q) => Inside::Fault(q),
    }
}

fn between(o: Outside, end: usize) -> Inside
    ensures { result ≡ between o end }
{
    match o {
        Outside::Element(p) => Inside::Element(p),
        Outside::On(q) => Inside::On(q),
        Outside::Nothing => Inside::Fault(end),
        Outside::Fault(q) => Inside::Fault(q),
    }
}

// At a place where no blank stands, in the element whose tag is at `outer`, which may lack what it needs.
pub fn inside_at(lacking: bool, text: &[u8], outer: usize, p: usize) -> Inside
    ensures { result ≡ inside_at lacking text.now outer p }
{
    if ends_at(opener(text, p)) {
        if lacking {
            return Inside::Fault(p);
        }
        return closing(part_at(text, outer, p), p);
    }
    between(outside_at(text, p), text.len())
}
