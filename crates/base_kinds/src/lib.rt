// The table of kinds. A kind is 1 to 15; any other number has the row of none.
#![tactic(auto)]

ghost use Rattle.std.specs.Prelude.{◌≡◌};
ghost use Rattle.base_kinds.specs.Kinds.{kind_of, used};

use base_words::Word;

pub mod moves;

// How many there are: none, one, or as many as a list has.
pub const NONE: Word = 0;

pub const ONE: Word = 1;

pub const MANY: Word = 2;

// The letters of the longest keyword, and the most parts of an element's text.
pub const LETTERS: usize = 10;

pub const PARTS: usize = 4;

#[derive(Clone, Copy)]
pub struct Kind {
    pub keyword: [u8; LETTERS],
    pub letters: Word,
    pub parts: [u8; PARTS],
    pub entries: Word,
    pub exits: Word,
    pub task: Word,
    pub conditions: Word,
    pub receives: Word,
    pub sends: Word,
}

// The row of none, and those of the kinds.
const ROWS: usize = 16;

const NO_KIND: Kind = Kind {
    keyword: *b"          ",
    letters: 0,
    parts: *b"    ",
    entries: NONE,
    exits: NONE,
    task: NONE,
    conditions: NONE,
    receives: NONE,
    sends: NONE,
};

// What both joins have.
const JOIN: Kind = Kind {
    letters: 7,
    parts: *b"FX  ",
    entries: MANY,
    exits: ONE,
    ..NO_KIND
};

// "A keyword is compared whole, as fixed bytes": blanks stand behind it. The letters of the parts are those of specs/Kinds.antt.
// A static, since a constant would be put on the stack before one row is read.
static KINDS: [Kind; ROWS] = [
    NO_KIND,
    Kind {
        keyword: *b"start     ",
        letters: 5,
        parts: *b"EX  ",
        entries: ONE,
        exits: ONE,
        ..NO_KIND
    },
    Kind {
        keyword: *b"startRcv  ",
        letters: 8,
        parts: *b"TX  ",
        exits: ONE,
        receives: ONE,
        ..NO_KIND
    },
    Kind {
        keyword: *b"end       ",
        letters: 3,
        parts: *b"E   ",
        entries: ONE,
        ..NO_KIND
    },
    Kind {
        keyword: *b"terminate ",
        letters: 9,
        parts: *b"E   ",
        entries: ONE,
        ..NO_KIND
    },
    Kind {
        keyword: *b"endSnd    ",
        letters: 6,
        parts: *b"ES  ",
        entries: ONE,
        sends: ONE,
        ..NO_KIND
    },
    Kind {
        keyword: *b"interRcv  ",
        letters: 8,
        parts: *b"ETX ",
        entries: ONE,
        exits: ONE,
        receives: ONE,
        ..NO_KIND
    },
    Kind {
        keyword: *b"interSnd  ",
        letters: 8,
        parts: *b"ESX ",
        entries: ONE,
        exits: ONE,
        sends: ONE,
        ..NO_KIND
    },
    Kind {
        keyword: *b"eventBased",
        letters: 10,
        parts: *b"EB  ",
        entries: ONE,
        exits: MANY,
        receives: MANY,
        ..NO_KIND
    },
    Kind {
        keyword: *b"andSplit  ",
        letters: 8,
        parts: *b"EY  ",
        entries: ONE,
        exits: MANY,
        ..NO_KIND
    },
    Kind {
        keyword: *b"andJoin   ",
        ..JOIN
    },
    Kind {
        keyword: *b"xorJoin   ",
        ..JOIN
    },
    Kind {
        keyword: *b"xorSplit  ",
        letters: 8,
        parts: *b"EG  ",
        entries: ONE,
        exits: MANY,
        conditions: MANY,
        ..NO_KIND
    },
    Kind {
        keyword: *b"task      ",
        letters: 4,
        parts: *b"ENX ",
        entries: ONE,
        exits: ONE,
        task: ONE,
        conditions: ONE,
        ..NO_KIND
    },
    Kind {
        keyword: *b"taskRcv   ",
        letters: 7,
        parts: *b"ENTX",
        entries: ONE,
        exits: ONE,
        task: ONE,
        conditions: ONE,
        receives: ONE,
        ..NO_KIND
    },
    Kind {
        keyword: *b"taskSnd   ",
        letters: 7,
        parts: *b"ENSX",
        entries: ONE,
        exits: ONE,
        task: ONE,
        conditions: ONE,
        sends: ONE,
        ..NO_KIND
    },
];

// The row of kind k; that of none where k is no kind.
#[tactic(auto, unfolding(crate::specs::Kinds::kind_of))]
fn row(k: Word) -> &'static Kind
    ensures { result.now ≡ kind_of k }
{
    KINDS.get(k as usize).unwrap_or(&NO_KIND)
}

// What the row of kind k has in a column.
pub fn letters_of(k: Word) -> Word
    ensures { result ≡ (kind_of k).letters }
{
    row(k).letters
}

pub fn entries_of(k: Word) -> Word
    ensures { result ≡ (kind_of k).entries }
{
    row(k).entries
}

pub fn exits_of(k: Word) -> Word
    ensures { result ≡ (kind_of k).exits }
{
    row(k).exits
}

pub fn task_of(k: Word) -> Word
    ensures { result ≡ (kind_of k).task }
{
    row(k).task
}

pub fn conditions_of(k: Word) -> Word
    ensures { result ≡ (kind_of k).conditions }
{
    row(k).conditions
}

pub fn receives_of(k: Word) -> Word
    ensures { result ≡ (kind_of k).receives }
{
    row(k).receives
}

pub fn sends_of(k: Word) -> Word
    ensures { result ≡ (kind_of k).sends }
{
    row(k).sends
}

pub fn keyword_of(k: Word) -> [u8; LETTERS]
    ensures { result ≡ (kind_of k).keyword }
{
    row(k).keyword
}

pub fn parts_of(k: Word) -> [u8; PARTS]
    ensures { result ≡ (kind_of k).parts }
{
    row(k).parts
}

// The row of kind k.
pub fn kind_of(k: Word) -> Kind
    ensures { result ≡ kind_of k }
{
    *row(k)
}

// How many there are by a cell: none, one, or the n that a list has.
#[tactic(auto, using(base_words::proofs::PickLaws::chains), unfolding(crate::specs::Kinds::used))]
pub fn count_by(cell: Word, n: Word) -> Word
    ensures { result ≡ used cell n }
{
    if cell == MANY { n } else { cell }
}
