// Things of so many words each, one behind the other: a test of each, and 0 behind them.
ghost use Rattle.std.specs.Prelude.{◌≡◌, ℕ, List, Bool, ◌*◌, ◌<◌, drop};
ghost use Rattle.check_limits.specs.Limits.{things};

use base_words::{Word, tail};
use check_limits::zeros::zeros_behind;

// Whether, of `most` things of `width` words each, the first k pass a test, and the words of the others are 0.
pub fn things_fit<F: Fn(&[Word]) -> bool>(
    x: &[Word],
    width: Word,
    most: Word,
    k: Word,
    fits: F,
) -> bool
    requires { (y : _) (j : ℕ) → j < k → y.now ≡ drop (width * j) x.now → F.pre fits y }
    ensures { (p : List ℕ → Bool) → ((y : _) (r : Bool) → F.post fits y r → r ≡ p y.now) → result ≡ things x.now width most k p }
{
    for j in 0..k {
        if !fits(tail(x, (width as usize) * (j as usize))) {
            return false;
        }
    }
    zeros_behind(x, width, most, k)
}
