// What is amiss with nodes: R15, R16, R22, R24.
ghost use Rattle.std.specs.Prelude.{◌≡◌};
ghost use Rattle.draw_faults.specs.Amiss.{has_wrong_default, is_unheard, is_untold};

use super::has;
use draw_kinds::counting::{SOURCE_IN, TARGET_IN, count_with};
use draw_links::named;
use draw_numbers::who::{is_receiver, is_sender, is_split};
use draw_things::things::{MESSAGE_FLOW, Note};

// Whether the default of a split is none of its own flows.
#[tactic(auto, unfolding(crate::specs::Amiss::has_wrong_default))]
pub fn has_wrong_default(text: &[u8], w: &[Note], n: Note, k: Note) -> bool
    ensures { result ≡ has_wrong_default text.now w.now n k }
{
    is_split(w, k) && (has(text, b"default", w, k) && named(text, w, n, k, b"default") == 0)
}

// Whether no message flow leaves sender k, or two do.
#[tactic(auto, unfolding(crate::specs::Amiss::is_unheard))]
pub fn is_unheard(w: &[Note], n: Note, k: Note) -> bool
    ensures { result ≡ is_unheard w.now n k }
{
    is_sender(w, k) && count_with(MESSAGE_FLOW, SOURCE_IN, k, w, n) != 1
}

// Whether no message flow comes to receiver k, or two do.
#[tactic(auto, unfolding(crate::specs::Amiss::is_untold))]
pub fn is_untold(w: &[Note], n: Note, k: Note) -> bool
    ensures { result ≡ is_untold w.now n k }
{
    is_receiver(w, k) && count_with(MESSAGE_FLOW, TARGET_IN, k, w, n) != 1
}
