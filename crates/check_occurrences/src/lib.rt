// What the model checks count in one element; checks 7 and 8 are about one element alone.
#![tactic(auto)]

ghost use Rattle.std.specs.Prelude.{◌≡◌, ◌+◌, ◌&&◌, eqb};
ghost use Rattle.check_occurrences.specs.Occurrences.{condition_count, received_count, sent_count, condition_form, default_once, binds_field, binds_anew, template_once, bound_once};
ghost use Rattle.base_words.specs.Sum.{sum};
ghost use Rattle.base_words.specs.Words.{at};
ghost use Rattle.base_table.specs.Places.{form_place, left_place, operand_number, binding, default};
ghost use Rattle.base_table.specs.Table.{item_at};

use base_kinds::{conditions_of, count_by, receives_of, sends_of};
use base_table::places::{BINDING, DEFAULT, FORM, LEFT, OPERAND_NUMBER};
use base_table::{condition_at, exit_count, item_at, kind_in, message_length};
use base_words::counts::NAMED;
use base_words::{Word, word};

#[tactic(auto, unfolding(crate::specs::Occurrences::condition_count))]
pub fn condition_count(el: &[Word]) -> Word
    ensures { result ≡ condition_count el.now }
{
    count_by(conditions_of(kind_in(el)), exit_count(el))
}

#[tactic(auto, unfolding(crate::specs::Occurrences::received_count))]
pub fn received_count(el: &[Word]) -> Word
    ensures { result ≡ received_count el.now }
{
    count_by(receives_of(kind_in(el)), exit_count(el))
}

#[tactic(auto, unfolding(crate::specs::Occurrences::sent_count))]
pub fn sent_count(el: &[Word]) -> Word
    ensures { result ≡ sent_count el.now }
{
    count_by(sends_of(kind_in(el)), exit_count(el))
}

fn condition_form(el: &[Word], j: Word) -> Word
    ensures { result ≡ condition_form el.now j }
{
    word(condition_at(el, j), FORM)
}

fn is_default(el: &[Word], j: Word) -> bool
    ensures { result ≡ eqb (condition_form el.now j) default }
{
    condition_form(el, j) == DEFAULT
}

// Whether at most one condition is the default.
pub fn default_once(el: &[Word]) -> bool
    ensures { result ≡ default_once el.now }
{
    let defaults = (0..condition_count(el))
        .filter(|&j| is_default(el, j))
        .count();
    defaults <= 1
}

// Whether an item binds field d.
fn binds_field(x: &[Word], d: Word) -> bool
    ensures { result ≡ eqb (at x.now form_place) binding && eqb (at x.now (left_place + operand_number)) d }
{
    word(x, FORM) == BINDING && word(x, LEFT + OPERAND_NUMBER) == d
}

// How many of the first items of template j bind field d.
fn bound_below(el: &[Word], j: Word, d: Word, count: Word) -> usize
    ensures { result ≡ sum (λ i. binds_field d (item_at el.now j i)) count }
{
    (0..count)
        .filter(|&i| binds_field(item_at(el, j, i), d))
        .count()
}

// Whether item i of template j binds no field that an item before it binds.
#[tactic(auto, using(base_words::proofs::PickLaws::picks), unfolding(crate::specs::Occurrences::binds_anew))]
fn binds_anew(el: &[Word], j: Word, i: Word) -> bool
    ensures { result ≡ binds_anew el.now j i }
{
    let item = item_at(el, j, i);
    let d = word(item, LEFT + OPERAND_NUMBER);
    word(item, FORM) != BINDING || NAMED <= d || bound_below(el, j, d, i) == 0
}

fn template_once(el: &[Word], j: Word) -> bool
    ensures { result ≡ template_once el.now j }
{
    (0..message_length(el, j)).all(|i| binds_anew(el, j, i))
}

// Whether no template binds a field twice.
pub fn bound_once(el: &[Word]) -> bool
    ensures { result ≡ bound_once el.now }
{
    (0..received_count(el)).all(|j| template_once(el, j))
}
