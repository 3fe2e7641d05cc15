// Whether a thing breaks a rule, by the rule's ordinal.
ghost use Rattle.std.specs.Prelude.{◌≡◌};
ghost use Rattle.draw_diagnose.specs.Rules.{is_adrift, breaks_pools, breaks_nodes, breaks_flows, breaks};

use base_words::Word;
use draw_faults::flows::{is_loose, is_wrong_branch, is_wrong_condition, is_wrong_message};
use draw_faults::ids::is_repeated;
use draw_faults::nodes::{has_wrong_default, is_unheard, is_untold};
use draw_faults::pools::{is_lost, is_second, is_second_collaboration, is_unowned};
use draw_kinds::counting::of_sort;
use draw_numbers::who::is_of_kind;
use draw_things::things::{
    CONDITION_EXPRESSION, Note, PARTICIPANT_MULTIPLICITY, STRANGER, source_of, target_of,
};

// The rules of things; the last one of each group is what the others leave.
const A_STRANGER: Word = 1;

const REPEATED: Word = 2;

const SECOND_COLLABORATION: Word = 3;

const LOST: Word = 4;

const UNOWNED: Word = 5;

const LOOSE: Word = 7;

const ADRIFT: Word = 8;

const OF_NO_KIND: Word = 9;

const WRONG_DEFAULT: Word = 10;

const UNHEARD: Word = 12;

const UNTOLD: Word = 13;

const WRONG_BRANCH: Word = 14;

const SECOND_CONDITION: Word = 15;

pub const RULES_OF_THINGS: Word = 16;

// The rules of a whole drawing.
pub const NO_POOL: Word = 17;

pub const TOO_MANY: Word = 18;

fn is_adrift(text: &[u8], w: &[Note], k: Note) -> bool
    ensures { result ≡ is_adrift text.now w.now k }
{
    is_wrong_message(text, w, k) && (source_of(w, k) == 0 || target_of(w, k) == 0)
}

fn breaks_pools(rule: Word, text: &[u8], w: &[Note], n: Note, k: Note) -> bool
    ensures { result ≡ breaks_pools rule text.now w.now n k }
{
    if rule == A_STRANGER {
        return of_sort(STRANGER, w, k);
    }
    if rule == REPEATED {
        return is_repeated(text, w, k);
    }
    if rule == SECOND_COLLABORATION {
        return is_second_collaboration(w, k);
    }
    if rule == LOST {
        return is_lost(text, w, k);
    }
    if rule == UNOWNED {
        return is_unowned(w, n, k);
    }
    is_second(PARTICIPANT_MULTIPLICITY, w, k)
}

fn breaks_nodes(rule: Word, text: &[u8], w: &[Note], n: Note, k: Note) -> bool
    ensures { result ≡ breaks_nodes rule text.now w.now n k }
{
    if rule == LOOSE {
        return is_loose(w, k);
    }
    if rule == ADRIFT {
        return is_adrift(text, w, k);
    }
    if rule == OF_NO_KIND {
        return is_of_kind(0, w, k);
    }
    if rule == WRONG_DEFAULT {
        return has_wrong_default(text, w, n, k);
    }
    is_wrong_message(text, w, k)
}

fn breaks_flows(rule: Word, text: &[u8], w: &[Note], n: Note, k: Note) -> bool
    ensures { result ≡ breaks_flows rule text.now w.now n k }
{
    if rule == UNHEARD {
        return is_unheard(w, n, k);
    }
    if rule == UNTOLD {
        return is_untold(w, n, k);
    }
    if rule == WRONG_BRANCH {
        return is_wrong_branch(w, k);
    }
    if rule == SECOND_CONDITION {
        return is_second(CONDITION_EXPRESSION, w, k);
    }
    is_wrong_condition(text, w, k)
}

pub fn breaks(rule: Word, text: &[u8], w: &[Note], n: Note, k: Note) -> bool
    ensures { result ≡ breaks rule text.now w.now n k }
{
    if rule < LOOSE {
        return breaks_pools(rule, text, w, n, k);
    }
    if rule < UNHEARD {
        return breaks_nodes(rule, text, w, n, k);
    }
    breaks_flows(rule, text, w, n, k)
}
