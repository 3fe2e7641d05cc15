// The version that a state is made for and keeps.
ghost use Rattle.std.specs.Prelude.{◌≡◌};
ghost use Rattle.base_state.specs.Instances.{version_of, version_seen};
ghost use Rattle.base_state.specs.Versions.{is_version};

use super::places::{VERSION, VERSION_SEEN};
use base_words::{Word, word};

// The former version waits where the present one does not.
pub const FORMER: Word = 10;

pub const PRESENT: Word = 20;

#[tactic(auto, using(base_words::proofs::PickLaws::picks), unfolding(crate::specs::Versions::is_version))]
pub fn is_version(v: Word) -> bool
    ensures { result ≡ is_version v }
{
    v == FORMER || v == PRESENT
}

// The version of a state.
pub fn version_of(s: &[Word]) -> Word
    ensures { result ≡ version_of s.now }
{
    word(s, VERSION)
}

// The version as a step sees it, behind its instance.
pub fn version_seen(h: &[Word]) -> Word
    ensures { result ≡ version_seen h.now }
{
    word(h, VERSION_SEEN)
}
