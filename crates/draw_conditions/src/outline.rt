// A markup's sort and the place behind it, no token of it judged.
ghost use Rattle.std.specs.Prelude.{◌≡◌};
ghost use Rattle.draw_conditions.specs.Outline.{outline};

use base_bytes::byte;
use xml_markup::Scan;
use xml_markup::staying::stay;
use xml_markup::tokens::{begun, moved};

// The markup that `<` or `&` opens at a place.
pub(super) fn outline(text: &[u8], p: usize) -> Scan
    ensures { result ≡ outline text.now p }
{
    let mut c = begun(p);
    let mut i = p;
    // Stays a while: bytes in which the scanner stays are passed together.
    while i < text.len() {
        let a = moved(c, byte(text, i), i, i + 1);
        let Scan::On(next) = a else {
            return a;
        };
        c = next;
        let s = next.state;
        i = stay(s, text, i + 1);
    }
    Scan::Fault(i)
}
