// Bytes that leave a markup where it is, passed together.
#![tactic(auto, using(base_words::proofs::PickLaws::picks, std::proofs::lemmas::Bool::Decides::nat_tests), unfolding(crate::specs::Staying::is_plain, crate::specs::Staying::stays_in_comment, crate::specs::Staying::stays_in_data, crate::specs::Staying::stays_in_instruction, crate::specs::Staying::stays_in_tag, crate::specs::Staying::stays_in_end, crate::specs::Staying::stays))]

ghost use Rattle.std.specs.Prelude.{◌≡◌, drop};
ghost use Rattle.base_bytes.specs.Bytes.{past};
ghost use Rattle.xml_markup.specs.Staying.{is_plain, stays_in_comment, stays_in_data, stays_in_instruction, stays_in_tag, stays_in_end, stays};

use super::Class;
use super::spans::run;
use xml_scanner::{InComment, InData, InEnd, InInstruction, InTag, State};

// Most bytes of values are letters, so they are looked for first.
fn is_plain(q: u8, b: u8) -> bool
    ensures { result ≡ is_plain q b }
{
    b != q && (b'<' < b || 32 <= b && b != b'&' && b != b'<')
}

pub fn plain_from(q: u8, text: &[u8], from: usize) -> usize
    ensures { result ≡ past (is_plain q) (drop from text.now) from }
{
    let rest = text.get(from..).unwrap_or(&[]);
    from + rest
        .iter()
        .position(|b| !is_plain(q, *b))
        .unwrap_or(rest.len())
}

fn stay_in_comment(s: InComment, text: &[u8], i: usize) -> usize
    ensures { result ≡ past (stays_in_comment s) (drop i text.now) i }
{
    match s {
        InComment::Inside => plain_from(b'-', text, i),
        InComment::Dash => i,
        InComment::Dashes => i,
    }
}

fn stay_in_data(s: InData, text: &[u8], i: usize) -> usize
    ensures { result ≡ past (stays_in_data s) (drop i text.now) i }
{
    match s {
        InData::Inside => plain_from(b']', text, i),
        InData::Bracket => i,
        InData::Brackets => i,
    }
}

fn stay_in_instruction(s: InInstruction, text: &[u8], i: usize) -> usize
    ensures { result ≡ past (stays_in_instruction s) (drop i text.now) i }
{
    match s {
        InInstruction::Opened => i,
        InInstruction::Target => i,
        InInstruction::TargetMark => i,
        InInstruction::Inside => plain_from(b'?', text, i),
        InInstruction::Mark => i,
    }
}

fn stay_in_tag(s: InTag, text: &[u8], i: usize) -> usize
    ensures { result ≡ past (stays_in_tag s) (drop i text.now) i }
{
    match s {
        InTag::Name => run(Class::Name, text, i),
        InTag::Blank => run(Class::Blanks, text, i),
        InTag::Attribute => run(Class::Name, text, i),
        InTag::Named => i,
        InTag::Equals => i,
        InTag::Value(q) => plain_from(q, text, i),
        InTag::Reference(q) => i,
        InTag::Behind => i,
        InTag::Slash => i,
    }
}

fn stay_in_end(s: InEnd, text: &[u8], i: usize) -> usize
    ensures { result ≡ past (stays_in_end s) (drop i text.now) i }
{
    match s {
        InEnd::Opened => i,
        InEnd::Name => run(Class::Name, text, i),
        InEnd::Behind => i,
    }
}

// The place behind the bytes, from a place on, that leave a markup in this state.
pub fn stay(s: State, text: &[u8], i: usize) -> usize
    ensures { result ≡ past (stays s) (drop i text.now) i }
{
    match s {
        State::Begin => i,
        State::Opening(o) => i,
        State::Comment(c) => stay_in_comment(c, text, i),
        State::Data(d) => stay_in_data(d, text, i),
        State::Instruction(x) => stay_in_instruction(x, text, i),
        State::Tag(t) => stay_in_tag(t, text, i),
        State::EndTag(e) => stay_in_end(e, text, i),
        State::Reference => i,
    }
}
