// The numbers and values that the words of a line spell.
use base_words::Word;
use meaning::{Tuple, empty_tuple};
use text_numerals::{Number, number_of};

const COMMA: u8 = 44;

// A word as a value: a word of a block.
pub(super) fn value_in(word: &[u8]) -> Option<Word> {
    let n = number_of(word);
    let Number::Value(v) = n else {
        return None;
    };
    Some(v)
}

// A word as the number of a command that is no value.
pub(super) fn number_in(word: &[u8]) -> Option<u16> {
    u16::try_from(value_in(word)?).ok()
}

// A word as the place of one of so many.
pub(super) fn place_in(word: &[u8], most: usize) -> Option<usize> {
    let n = number_in(word)? as usize;
    if n < most { Some(n) } else { None }
}

// A word as values: `-` for none, or values joined by commas. The first four are kept, and all are counted.
pub(super) fn values_in(word: &[u8]) -> Option<Tuple> {
    let mut tuple = empty_tuple();
    if matches!(word, b"-") {
        return Some(tuple);
    }
    for (i, one) in word.split(|b| *b == COMMA).enumerate() {
        let value = value_in(one)?;
        if let Some(place) = tuple.values.get_mut(i) {
            *place = value;
        }
        tuple.length = tuple.length.saturating_add(1);
    }
    Some(tuple)
}
