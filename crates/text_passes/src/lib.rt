// A pass over a text. It is read twice in the same way: the first pass marks elements and pools in tallies, the second stores them in a table.
#![tactic(auto)]

ghost use Rattle.std.specs.Prelude.{◌≡◌};
ghost use Rattle.text_passes.specs.Model.{model};
ghost use Rattle.text_passes.specs.Passes.{kept_all, kept_pool, Passed};

use base_words::Word;
use text_readers::{Read, end_at};

pub mod keep;
mod pools;

// The whole text, kept in w.
pub fn pass(fills: bool, text: &[u8], w: &mut [Word]) -> Read
    ensures { Passed (kept_all (kept_pool fills) 0) (model text.now) w.old result w.new }
{
    let q = pools::pools_at(fills, text, 0, w)?;
    end_at(text, q)
}
