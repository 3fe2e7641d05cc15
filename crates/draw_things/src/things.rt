// The things of a drawing: five notes for each, in the order in which they stand.
ghost use Rattle.std.specs.Prelude.{◌≡◌, set};
ghost use Rattle.base_words.specs.Words.{at};
ghost use Rattle.draw_things.specs.Things.{sort, place, within, source, target, kind, is_node, with_source, with_target, narrow, one_more, added};

use base_words::Word;

// What is noted of a thing: a sort, a place, another thing, a kind. Half a word, since a block of them stands on the stack.
pub type Note = u16;

// The greatest note: the last place of a text of 65,536 bytes. No number of what is drawn is greater.
const GREATEST_NOTE: Note = 65535;

const GREATEST_NUMBER: Word = GREATEST_NOTE as Word;

// The sorts of things.
pub const NOTHING: Note = 0;

pub const DEFINITIONS: Note = 1;

pub const COLLABORATION: Note = 2;

pub const PARTICIPANT: Note = 3;

pub const PARTICIPANT_MULTIPLICITY: Note = 4;

pub const MESSAGE_FLOW: Note = 5;

pub const PROCESS: Note = 6;

pub const SEQUENCE_FLOW: Note = 7;

pub const CONDITION_EXPRESSION: Note = 8;

pub const MESSAGE_EVENT_DEFINITION: Note = 9;

pub const TERMINATE_EVENT_DEFINITION: Note = 10;

pub const STRANGER: Note = 11;

pub const START_EVENT: Note = 12;

pub const END_EVENT: Note = 13;

pub const INTERMEDIATE_CATCH_EVENT: Note = 14;

pub const INTERMEDIATE_THROW_EVENT: Note = 15;

pub const TASK: Note = 16;

pub const SEND_TASK: Note = 17;

pub const RECEIVE_TASK: Note = 18;

pub const PARALLEL_GATEWAY: Note = 19;

pub const EXCLUSIVE_GATEWAY: Note = 20;

pub const EVENT_BASED_GATEWAY: Note = 21;

// The kind of a catch event behind an event gateway.
pub const BRANCH: Word = 16;

// The notes of a thing, the things that a block holds, and its notes.
pub const THING_WORDS: usize = 5;

pub const ROOM: usize = 6554;

pub const BLOCK_WORDS: usize = THING_WORDS * ROOM;

const PLACE: usize = 1;

const WITHIN: usize = 2;

const SOURCE: usize = 3;

const TARGET: usize = 4;

// The note at a place of the block; outside it 0.
pub fn note_at(w: &[Note], i: usize) -> Note
    ensures { result ≡ at w.now i }
{
    w.get(i).copied().unwrap_or(0)
}

fn put(w: &mut [Note], i: usize, v: Note)
    ensures { w.new ≡ set w.old i v }
{
    if i < w.len() {
        w[i] = v;
    }
}

pub fn sort_of(w: &[Note], k: Note) -> Note
    ensures { result ≡ sort w.now k }
{
    note_at(w, THING_WORDS * (k as usize))
}

pub fn place_of(w: &[Note], k: Note) -> Word
    ensures { result ≡ place w.now k }
{
    note_at(w, THING_WORDS * (k as usize) + PLACE) as Word
}

pub fn within_of(w: &[Note], k: Note) -> Note
    ensures { result ≡ within w.now k }
{
    note_at(w, THING_WORDS * (k as usize) + WITHIN)
}

pub fn source_of(w: &[Note], k: Note) -> Note
    ensures { result ≡ source w.now k }
{
    note_at(w, THING_WORDS * (k as usize) + SOURCE)
}

pub fn target_of(w: &[Note], k: Note) -> Note
    ensures { result ≡ target w.now k }
{
    note_at(w, THING_WORDS * (k as usize) + TARGET)
}

pub fn kind_of_thing(w: &[Note], k: Note) -> Word
    ensures { result ≡ kind w.now k }
{
    note_at(w, THING_WORDS * (k as usize) + SOURCE) as Word
}

pub fn set_source(w: &mut [Note], k: Note, v: Note)
    ensures { w.new ≡ with_source w.old k v }
{
    put(w, THING_WORDS * (k as usize) + SOURCE, v);
}

pub fn set_target(w: &mut [Note], k: Note, v: Note)
    ensures { w.new ≡ with_target w.old k v }
{
    put(w, THING_WORDS * (k as usize) + TARGET, v);
}

#[tactic(auto, unfolding(crate::specs::Things::is_node))]
pub fn is_node(s: Note) -> bool
    ensures { result ≡ is_node s }
{
    START_EVENT <= s && s <= EVENT_BASED_GATEWAY
}

// A place as a note.
#[tactic(auto, using(base_words::proofs::PickLaws::picks), unfolding(crate::specs::Things::narrow))]
fn narrow(p: usize) -> Note
    ensures { result ≡ narrow p }
{
    p.min(GREATEST_NOTE as usize) as Note
}

// One more; the greatest note stays.
#[tactic(auto, using(base_words::proofs::PickLaws::picks), unfolding(crate::specs::Things::one_more))]
pub fn one_more(n: Note) -> Note
    ensures { result ≡ one_more n }
{
    n.saturating_add(1)
}

// The number behind n; the greatest one stays.
#[tactic(auto, using(base_words::proofs::PickLaws::picks), unfolding(crate::specs::Things::one_more))]
pub fn next_number(n: Word) -> Word
    ensures { result ≡ one_more n }
{
    if n < GREATEST_NUMBER {
        n + 1
    } else {
        GREATEST_NUMBER
    }
}

// Thing n: of a sort, at a place, within thing k.
#[tactic(auto, unfolding(crate::specs::Things::added))]
pub fn add_thing(sort: Note, p: usize, k: Note, w: &mut [Note], n: Note)
    ensures { w.new ≡ added sort p k w.old n }
{
    let i = THING_WORDS * (n as usize);
    put(w, i, sort);
    put(w, i + PLACE, narrow(p));
    put(w, i + WITHIN, k);
    put(w, i + SOURCE, 0);
    put(w, i + TARGET, 0);
}
