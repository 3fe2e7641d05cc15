// A whole poll: named steps and posts out of lent words, one by one until the first refusal.
#![tactic(auto)]

ghost use Rattle.std.specs.Prelude.{◌≡◌};
ghost use Rattle.step_poll.specs.Items.{given_in, name_in, act_in, acts_in};
ghost use Rattle.step_poll.specs.Poll.{Left, settled_act, Polling, polled_from};

use base_state::places::STATE_WORDS;
use base_table::places::TABLE_WORDS;
use base_words::numbers::TOO_MANY;
use base_words::{Word, tail, word};
use meaning::{Name, Tuple};
use step_take::{post_on, step_on};

// The items of a poll, at most so many; each is 1 for a post, anything else a step; pool or name; instance, element, phase, branch; length, 4 values.
pub const ITEMS: usize = 64;

pub const A_POST: Word = 1;

pub const POOL_OR_NAME: usize = 1;

pub const INSTANCE: usize = 2;

pub const ELEMENT: usize = 3;

pub const PHASE: usize = 4;

pub const BRANCH: usize = 5;

pub const LENGTH: usize = 6;

pub const FIRST_VALUE: usize = 7;

pub const ITEM_WORDS: usize = 11;

pub const POLL_WORDS: usize = ITEM_WORDS * ITEMS;

// The number of the first refusal, 0 if there was none, and how many items were accepted.
#[repr(C)]
#[derive(Clone, Copy)]
pub struct Polled {
    pub number: Word,
    pub accepted: usize,
}

fn given_in(item: &[Word]) -> Tuple
    ensures { result ≡ given_in item.now }
{
    Tuple {
        length: word(item, LENGTH),
        values: [
            word(item, FIRST_VALUE),
            word(item, FIRST_VALUE + 1),
            word(item, FIRST_VALUE + 2),
            word(item, FIRST_VALUE + 3),
        ],
    }
}

fn name_in(item: &[Word]) -> Name
    ensures { result ≡ name_in item.now }
{
    Name {
        pool: word(item, POOL_OR_NAME),
        instance: word(item, INSTANCE),
        element: word(item, ELEMENT),
        phase: word(item, PHASE),
        branch: word(item, BRANCH),
        given: given_in(item),
    }
}

// Does one item: the number that refuses it, or 0.
fn take_item(t: &[Word; TABLE_WORDS], z: &mut [Word; STATE_WORDS], item: &[Word]) -> Word
    ensures { record { number = result; state = z.new } ≡ settled_act t.now (act_in item.now) z.old }
{
    if word(item, 0) == A_POST {
        return post_on(z, word(item, POOL_OR_NAME), given_in(item));
    }
    let a = step_on(t, z, name_in(item));
    a.number
}

// Does the items one by one until the first refusal: 22 where there are more than 64, then the number that table and state are refused with, and nothing is done.
pub fn poll_on(
    t: &[Word; TABLE_WORDS],
    z: &mut [Word; STATE_WORDS],
    items: &[Word; POLL_WORDS],
    count: usize,
    right: Word,
) -> Polled
    ensures { record { number = result.number; accepted = result.accepted; state = z.new } ≡ polled_from (settled_act t.now) right items.now count z.old }
{
    if count > ITEMS {
        return Polled {
            number: TOO_MANY,
            accepted: 0,
        };
    }
    if right != 0 {
        return Polled {
            number: right,
            accepted: 0,
        };
    }
    for accepted in 0..count {
        let number = take_item(t, z, tail(items, ITEM_WORDS * accepted));
        if number != 0 {
            return Polled { number, accepted };
        }
    }
    Polled {
        number: 0,
        accepted: count,
    }
}
