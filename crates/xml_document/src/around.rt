// The root of a document, and what stands behind it.
#![tactic(auto, using(base_words::proofs::PickLaws::picks, std::proofs::lemmas::Bool::Decides::nat_tests), unfolding(crate::specs::Around::root_by, crate::specs::Around::root_at, crate::specs::Around::last_by, crate::specs::Around::last_from))]

ghost use Rattle.std.specs.Prelude.{◌≡◌};
ghost use Rattle.xml_document.specs.Around.{root_by, root_at, last_by, last_from};

use super::{Outside, outside_from};
use xml_markup::spans::is_called;
use xml_markup::tokens::first;
use xml_skip::Fault;

fn root_by(o: Outside, text: &[u8], name: &[u8]) -> Result<usize, Fault>
    ensures { result ≡ root_by o name.now text.now }
{
    match o {
        Outside::Element(p) => {
            if is_called(text, p, name) {
                return Ok(p);
            }
            Err(Fault { place: p })
        }
        Outside::On(q) => Err(Fault { place: q }),
        Outside::Nothing => Err(Fault { place: text.len() }),
        Outside::Fault(q) => Err(Fault { place: q }),
    }
}

// The root's `<`, where it is called so, or the place of the fault.
pub fn root_at(text: &[u8], name: &[u8]) -> Result<usize, Fault>
    ensures { result ≡ root_at name.now text.now }
{
    root_by(outside_from(text, first(text)), text, name)
}

fn last_by(o: Outside, text: &[u8]) -> Result<usize, Fault>
    ensures { result ≡ last_by o text.now }
{
    match o {
        Outside::Element(p) => Err(Fault { place: p }),
        Outside::On(q) => Err(Fault { place: q }),
        Outside::Nothing => Ok(text.len()),
        Outside::Fault(q) => Err(Fault { place: q }),
    }
}

// The end of the text behind the root, or the place of the fault.
pub fn last_from(text: &[u8], q: usize) -> Result<usize, Fault>
    ensures { result ≡ last_from text.now q }
{
    last_by(outside_from(text, q), text)
}
