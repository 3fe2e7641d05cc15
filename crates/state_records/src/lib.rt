// The desk's records as it lends them: structs of three words, in a slice. Each function that takes one does little: it reads or stores a record, or takes the list apart for a call on words and puts back what that
// made of it.
#![tactic(auto)]

ghost use Rattle.std.specs.Prelude.{◌≡◌, get_or, set};
ghost use Rattle.state_records.specs.Records.{triple_of, no_record, four_of, put_back, words_of, lent_count, struct_of, four_from};

use base_words::Word;
use state_figures::RECORD_WORDS;

// One more than there can be pools: a list that is too long shows by it.
pub const LENT: usize = 5;

// Instances made, unfinished and finished.
#[repr(C)]
#[derive(Clone, Copy)]
pub struct Record {
    pub made: Word,
    pub unfinished: Word,
    pub finished: Word,
}

// As many records as there can be pools, and how many were lent: fields and no array, since the definitions `four_of`, `words_of` and `four_from` name them.
#[derive(Clone, Copy)]
pub struct Four {
    pub first: Record,
    pub second: Record,
    pub third: Record,
    pub fourth: Record,
    pub count: usize,
}

// The record at place p, of zeros where there is none.
fn record_at(rs: &[Record], p: usize) -> Record
    ensures { result ≡ get_or rs.now p no_record }
{
    rs.get(p).copied().unwrap_or(Record {
        made: 0,
        unfinished: 0,
        finished: 0,
    })
}

// Sets the record at place p, and nothing where there is none.
pub fn put_record(rs: &mut [Record], p: usize, r: Record)
    ensures { rs.new ≡ set rs.old p r }
{
    if p < rs.len() {
        rs[p] = r;
    }
}

pub fn take_apart(rs: &[Record]) -> Four
    ensures { result ≡ four_of rs.now }
{
    Four {
        first: record_at(rs, 0),
        second: record_at(rs, 1),
        third: record_at(rs, 2),
        fourth: record_at(rs, 3),
        count: rs.len(),
    }
}

pub fn put_back(rs: &mut [Record], f: Four)
    ensures { rs.new ≡ put_back rs.old f }
{
    put_record(rs, 0, f.first);
    put_record(rs, 1, f.second);
    put_record(rs, 2, f.third);
    put_record(rs, 3, f.fourth);
}

impl From<Record> for [Word; RECORD_WORDS] {
    ghost from_gives = { λ r w. w ≡ triple_of r };

    fn from(r: Record) -> [Word; RECORD_WORDS] {
        [r.made, r.unfinished, r.finished]
    }
}

impl From<[Word; RECORD_WORDS]> for Record {
    ghost from_gives = { λ w r. r ≡ struct_of w };

    fn from(w: [Word; RECORD_WORDS]) -> Record {
        Record {
            made: w[0],
            unfinished: w[1],
            finished: w[2],
        }
    }
}

// The words that the covered calls are lent a part of.
#[tactic(auto, unfolding(crate::specs::Records::words_of))]
pub fn words_of(f: Four) -> [[Word; RECORD_WORDS]; LENT]
    ensures { result ≡ words_of f }
{
    let first: [Word; RECORD_WORDS] = f.first.into();
    let second: [Word; RECORD_WORDS] = f.second.into();
    let third: [Word; RECORD_WORDS] = f.third.into();
    let fourth: [Word; RECORD_WORDS] = f.fourth.into();
    [first, second, third, fourth, [0; RECORD_WORDS]]
}

// How many of them: as many as the desk's records, five at most.
#[tactic(auto, using(crate::proofs::FourLaws::count_few, crate::proofs::FourLaws::count_many))]
pub fn lent_count(f: Four) -> usize
    ensures { result ≡ lent_count f }
{
    f.count.min(LENT)
}

pub fn four_of(ws: &[[Word; RECORD_WORDS]; LENT], count: usize) -> Four
    ensures { result ≡ four_from ws.now count }
{
    let first = Record::from(ws[0]);
    let second = Record::from(ws[1]);
    let third = Record::from(ws[2]);
    let fourth = Record::from(ws[3]);
    Four {
        first,
        second,
        third,
        fourth,
        count,
    }
}
