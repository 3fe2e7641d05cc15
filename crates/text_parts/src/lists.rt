// Lists in a text, and their items: edges, items of a template or of a message, assignments, guarded branches.
ghost use Rattle.std.specs.Prelude.{◌≡◌, ◌≤◌};
ghost use Rattle.text_parts.specs.Parts.{edge_list, guarded_list, assignment_list, tuple, item_of, items, inside, series};
ghost use Rattle.text_terms.specs.Tails.{farthest};
ghost use Rattle.text_parts.specs.Tails.{items_to_close};

use super::Series;
use base_table::places::{
    ASSIGNMENT_COUNT, EXITS, FIRST_EDGE, MESSAGE_LENGTH, MESSAGE_WORDS, MESSAGES,
};
use base_words::counts::{ASSIGNMENTS, BRANCHES, EDGES, FEWEST, VALUES};
use base_words::{Word, put};
use text_bounds::{
    A_GUARDED_BRANCH, A_MESSAGE_ITEM, A_TEMPLATE_ITEM, AN_ASSIGNMENT, AN_EDGE, counted, starts,
    too_many,
};
use text_readers::{Read, number_in, sign_at};
use text_terms::{assignment, guarded, item_of_message, item_of_template};

// A list of edges, its count at the place `list`.
pub fn edge_list(list: u8) -> Series
    ensures { (result ≡ edge_list list) × (result.count ≤ farthest) }
{
    Series {
        item: AN_EDGE,
        opener: b'{',
        closer: b'}',
        least: FEWEST,
        most: BRANCHES as u8,
        count: list as u32,
        branch: 0,
    }
}

pub fn guarded_list() -> Series
    ensures { (result ≡ guarded_list) × (result.count ≤ farthest) }
{
    Series {
        item: A_GUARDED_BRANCH,
        opener: b'{',
        closer: b'}',
        least: FEWEST,
        most: BRANCHES as u8,
        count: EXITS as u32,
        branch: 0,
    }
}

pub fn assignment_list() -> Series
    ensures { (result ≡ assignment_list) × (result.count ≤ farthest) }
{
    Series {
        item: AN_ASSIGNMENT,
        opener: b'{',
        closer: b'}',
        least: 0,
        most: ASSIGNMENTS as u8,
        count: ASSIGNMENT_COUNT as u32,
        branch: 0,
    }
}

// The items of the message of branch b.
pub fn tuple(item: u8, b: u8) -> Series
    ensures { (result ≡ tuple item b) × (result.count ≤ farthest) }
{
    Series {
        item,
        opener: b'<',
        closer: b'>',
        least: 0,
        most: VALUES as u8,
        count: MESSAGES as u32 + MESSAGE_WORDS as u32 * (b as u32) + MESSAGE_LENGTH as u32,
        branch: b,
    }
}

// Item k of a list.
fn item_of(text: &[u8], at: usize, x: &mut [Word], s: Series, k: u8) -> Read
    requires { s.count ≤ farthest }
    ensures { record { end = result; words = x.new } ≡ item_of s k text.now at x.old }
{
    if s.item == AN_EDGE {
        return number_in(
            text,
            at,
            x,
            1,
            EDGES,
            s.count + FIRST_EDGE as u32 + (k as u32),
        );
    }
    if s.item == A_TEMPLATE_ITEM {
        return item_of_template(text, at, x, s.branch, k);
    }
    if s.item == A_MESSAGE_ITEM {
        return item_of_message(text, at, x, s.branch, k);
    }
    if s.item == AN_ASSIGNMENT {
        return assignment(text, at, x, k);
    }
    guarded(text, at, x, k)
}

// The items of a list, with commas between them, and their count.
fn items(text: &[u8], start: usize, x: &mut [Word], s: Series) -> Read
    requires { s.count ≤ farthest }
    ensures { record { end = result; words = x.new } ≡ items s text.now start x.old }
{
    let mut at = start;
    for k in 0..s.most {
        let q = item_of(text, at, x, s, k)?;
        let Ok(next) = sign_at(text, q, b',') else {
            return counted(text, q, x, s.least, s.count, k as Word + 1);
        };
        at = next;
    }
    too_many(text, at, starts(text, at, s.item))
}

fn items_to_close(text: &[u8], at: usize, x: &mut [Word], s: Series) -> Read
    requires { s.count ≤ farthest }
    ensures { record { end = result; words = x.new } ≡ items_to_close s text.now at x.old }
{
    let q = items(text, at, x, s)?;
    sign_at(text, q, s.closer)
}

// What stands behind the opening sign; a list that may be empty closes at once.
fn inside(text: &[u8], at: usize, x: &mut [Word], s: Series) -> Read
    requires { s.count ≤ farthest }
    ensures { record { end = result; words = x.new } ≡ inside s text.now at x.old }
{
    if s.least == 0 {
        if let Ok(q) = sign_at(text, at, s.closer) {
            put(x, s.count as usize, 0);
            return Ok(q);
        }
    }
    items_to_close(text, at, x, s)
}

pub fn series(text: &[u8], at: usize, x: &mut [Word], s: Series) -> Read
    requires { s.count ≤ farthest }
    ensures { record { end = result; words = x.new } ≡ series s text.now at x.old }
{
    let q = sign_at(text, at, s.opener)?;
    inside(text, q, x, s)
}
