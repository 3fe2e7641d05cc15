// The accepted steps of a state, in the order of the listing.
#![tactic(auto)]

ghost use Rattle.std.specs.Prelude.{◌≡◌};
ghost use Rattle.base_state.specs.Instances.{instances_of, queues_of};
ghost use Rattle.step_list.specs.Listing.{chosen};
ghost use Rattle.step_list.specs.Scanned.{scanned};

use base_state::places::STATE_WORDS;
use base_table::places::TABLE_WORDS;
use base_words::Word;
use base_words::numbers::ACCEPTED;
use meaning::Name;

mod levels;
mod parts;
mod stirring;

use base_words::numbers::NOT_LISTED;
use levels::scan_pools;

// The number given back, and beside 0 the name of the step.
#[repr(C)]
#[derive(Clone, Copy)]
pub struct Listed {
    pub number: Word,
    pub name: Name,
}

// The k-th accepted step.
pub fn list_on(t: &[Word; TABLE_WORDS], z: &[Word; STATE_WORDS], k: usize) -> Listed
    ensures { result ≡ chosen (scanned t.now (instances_of z.now) (queues_of z.now)) k }
{
    let r = scan_pools(t, z, k);
    if r.found {
        return Listed {
            number: ACCEPTED,
            name: r.name,
        };
    }
    Listed {
        number: NOT_LISTED,
        name: r.name,
    }
}
