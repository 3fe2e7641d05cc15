// The start of a pool, and how many instances the pool may have made.
ghost use Rattle.std.specs.Prelude.{◌≡◌};
ghost use Rattle.state_fits.specs.Fits.{is_start, start_place, has_start, made_fits};

use base_kinds::moves::START;
use base_table::{element_at, element_count, kind_in, limit_of, pool_count};
use base_words::Word;

#[tactic(auto, unfolding(crate::specs::Fits::is_start))]
fn is_start(t: &[Word], p: Word, e: Word) -> bool
    ensures { result ≡ is_start t.now p e }
{
    kind_in(element_at(t, p, e)) == START
}

// The place of the start among a pool's elements; their count where there is none.
pub fn start_place(t: &[Word], p: Word) -> Word
    ensures { result ≡ start_place t.now p }
{
    let n = element_count(t, p);
    (0..n).find(|&e| is_start(t, p, e)).unwrap_or(n)
}

#[tactic(auto, unfolding(crate::specs::Fits::has_start))]
pub fn has_start(t: &[Word], p: Word) -> bool
    ensures { result ≡ has_start t.now p }
{
    start_place(t, p) < element_count(t, p)
}

// Whether a pool may have made so many instances.
#[tactic(auto, using(base_words::proofs::PickLaws::picks), unfolding(crate::specs::Fits::made_fits))]
pub fn made_fits(t: &[Word], p: Word, made: Word) -> bool
    ensures { result ≡ made_fits t.now p made }
{
    if pool_count(t) <= p {
        made == 0
    } else if has_start(t, p) {
        made == 1
    } else {
        made <= limit_of(t, p)
    }
}
