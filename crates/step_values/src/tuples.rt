// Tuples of 0 to 4 values, by value: a length, and the values within it.
ghost use Rattle.std.specs.Prelude.{◌≡◌};
ghost use Rattle.meaning.specs.Tuples.{value_of, same_tuple};

use base_words::{Word, wide, word};
use meaning::Tuple;

// Value j of a tuple; behind its values 0, whatever stands there.
pub fn value_of(g: Tuple, j: Word) -> Word
    ensures { result ≡ value_of g j }
{
    if j < g.length {
        word(&g.values, wide(j))
    } else {
        0
    }
}

// Equal length, and equal values within it: a derived equality would read what stands behind them too.
pub fn same_tuple(g: Tuple, h: Tuple) -> bool
    ensures { result ≡ same_tuple g h }
{
    g.length == h.length && (0..wide(g.length)).all(|j| word(&g.values, j) == word(&h.values, j))
}
