// What the meaning in specs/ speaks of: values, tuples, the name of a step, its answer.
#![tactic(auto)]

ghost use Rattle.std.specs.Prelude.{◌≡◌};
ghost use Rattle.meaning.specs.Tuples.{empty};

use base_words::Word;
use base_words::counts::VALUES;

// "A field is 0 to 4,294,967,295 or undefined."
pub type Value = Option<Word>;

#[derive(Clone, Copy)]
pub enum Truth {
    True,
    False,
    Neither,
}

// "A message is a tuple of 0 to 4 defined values": a length, and the values within it.
#[repr(C)]
#[derive(Clone, Copy)]
pub struct Tuple {
    pub length: Word,
    pub values: [Word; VALUES as usize],
}

// What a message or a template comes to: whether all of it is defined, and the tuple.
#[derive(Clone, Copy)]
pub struct Evaluated {
    pub defined: bool,
    pub tuple: Tuple,
}

// "A step names pool number, instance, element place, phase, branch and message values." The values are the message consumed, else empty.
#[repr(C)]
#[derive(Clone, Copy)]
pub struct Name {
    pub pool: Word,
    pub instance: Word,
    pub element: Word,
    pub phase: Word,
    pub branch: Word,
    pub given: Tuple,
}

#[derive(Clone, Copy)]
pub enum Traffic {
    Nothing,
    Consumed,
    Sent,
}

// The number given back; of an accepted step also the message consumed or sent, its name and its values.
#[derive(Clone, Copy)]
pub struct Answer {
    pub number: Word,
    pub traffic: Traffic,
    pub name: Word,
    pub tuple: Tuple,
}

// The empty tuple.
pub fn empty_tuple() -> Tuple
    ensures { result ≡ empty }
{
    Tuple {
        length: 0,
        values: [0; VALUES as usize],
    }
}
