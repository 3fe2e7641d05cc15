// What the listing reads of a table: the move of an element.
ghost use Rattle.std.specs.Prelude.{◌≡◌};
ghost use Rattle.step_list.specs.Listing.{move_at};

use base_kinds::moves::{Move, move_of};
use base_table::{element_at, kind_in, mode_in};
use base_words::Word;

pub fn move_at(t: &[Word], p: Word, e: Word, f: Word) -> Move
    ensures { result ≡ move_at t.now p e f }
{
    let el = element_at(t, p, e);
    move_of(kind_in(el), mode_in(el), f)
}
