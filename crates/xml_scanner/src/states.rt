// What a byte does where it stands in a markup.
#![tactic(auto, using(base_words::proofs::PickLaws::picks, std::proofs::lemmas::Bool::Decides::nat_tests), unfolding(crate::specs::Openings::behind_less, crate::specs::Openings::behind_bracket, crate::specs::Openings::in_opening, crate::specs::Passages::in_comment, crate::specs::Passages::in_data, crate::specs::Passages::in_target, crate::specs::Passages::in_instruction, crate::specs::Tags::closing, crate::specs::Tags::behind, crate::specs::Tags::named, crate::specs::Tags::is_quote, crate::specs::Tags::is_reference, crate::specs::Tags::equals, crate::specs::Tags::behind_blank, crate::specs::Tags::in_value, crate::specs::Tags::in_value_reference, crate::specs::Tags::in_tag, crate::specs::Tags::behind_end, crate::specs::Tags::in_end, crate::specs::Tags::in_reference, crate::specs::Moves::at_begin, crate::specs::Moves::step))]

ghost use Rattle.std.specs.Prelude.{◌≡◌};
ghost use Rattle.xml_scanner.specs.Openings.{behind_less, behind_bracket, in_opening};
ghost use Rattle.xml_scanner.specs.Passages.{in_comment, in_data, in_target, in_instruction};
ghost use Rattle.xml_scanner.specs.Tags.{closing, behind, named, is_quote, is_reference, equals, behind_blank, in_value, in_value_reference, in_tag, behind_end, in_end, in_reference};
ghost use Rattle.xml_scanner.specs.Moves.{at_begin, step};

use super::{InComment, InData, InEnd, InInstruction, InOpening, InTag, Move, Sort, State};
use base_bytes::byte;
use xml_characters::{begins_name, is_blank, is_name};

fn behind_less(b: u8) -> Move
    ensures { result ≡ behind_less b }
{
    if b == b'/' {
        return Move::On(State::EndTag(InEnd::Opened));
    }
    if b == b'!' {
        return Move::On(State::Opening(InOpening::Bang));
    }
    if b == b'?' {
        return Move::On(State::Instruction(InInstruction::Opened));
    }
    if begins_name(b) {
        return Move::On(State::Tag(InTag::Name));
    }
    Move::Back
}

fn behind_bracket(k: u8, b: u8) -> Move
    ensures { result ≡ behind_bracket k b }
{
    if b != byte(b"[CDATA[", k as usize) {
        return Move::Back;
    }
    if k < 6 {
        return Move::On(State::Opening(InOpening::Bracket(k + 1)));
    }
    Move::On(State::Data(InData::Inside))
}

fn in_opening(s: InOpening, b: u8) -> Move
    ensures { result ≡ in_opening s b }
{
    match s {
        InOpening::Less => behind_less(b),
        InOpening::Bang => {
            if b == b'-' {
                return Move::On(State::Opening(InOpening::Dash));
            }
            if b == b'[' {
                return Move::On(State::Opening(InOpening::Bracket(1)));
            }
            Move::Back
        }
        InOpening::Dash => {
            if b == b'-' {
                return Move::On(State::Comment(InComment::Inside));
            }
            Move::Back
        }
        InOpening::Bracket(k) => behind_bracket(k, b),
    }
}

fn in_comment(s: InComment, b: u8) -> Move
    ensures { result ≡ in_comment s b }
{
    match s {
        InComment::Inside => {
            if b == b'-' {
                return Move::Next(State::Comment(InComment::Dash));
            }
            Move::On(State::Comment(InComment::Inside))
        }
        InComment::Dash => {
            if b == b'-' {
                return Move::On(State::Comment(InComment::Dashes));
            }
            Move::On(State::Comment(InComment::Inside))
        }
        InComment::Dashes => {
            if b == b'>' {
                return Move::Close(Sort::Comment);
            }
            Move::Back
        }
    }
}

fn in_data(s: InData, b: u8) -> Move
    ensures { result ≡ in_data s b }
{
    match s {
        InData::Inside => {
            if b == b']' {
                return Move::On(State::Data(InData::Bracket));
            }
            Move::On(State::Data(InData::Inside))
        }
        InData::Bracket => {
            if b == b']' {
                return Move::On(State::Data(InData::Brackets));
            }
            Move::On(State::Data(InData::Inside))
        }
        InData::Brackets => {
            if b == b'>' {
                return Move::Close(Sort::Data);
            }
            if b == b']' {
                return Move::On(State::Data(InData::Brackets));
            }
            Move::On(State::Data(InData::Inside))
        }
    }
}

fn in_target(b: u8) -> Move
    ensures { result ≡ in_target b }
{
    if is_name(b) {
        return Move::On(State::Instruction(InInstruction::Target));
    }
    if is_blank(b) {
        return Move::On(State::Instruction(InInstruction::Inside));
    }
    if b == b'?' {
        return Move::Next(State::Instruction(InInstruction::TargetMark));
    }
    Move::Here
}

fn in_instruction(s: InInstruction, b: u8) -> Move
    ensures { result ≡ in_instruction s b }
{
    match s {
        InInstruction::Opened => {
            if begins_name(b) {
                return Move::On(State::Instruction(InInstruction::Target));
            }
            Move::Back
        }
        InInstruction::Target => in_target(b),
        InInstruction::TargetMark => {
            if b == b'>' {
                return Move::Close(Sort::Instruction);
            }
            Move::Back
        }
        InInstruction::Inside => {
            if b == b'?' {
                return Move::On(State::Instruction(InInstruction::Mark));
            }
            Move::On(State::Instruction(InInstruction::Inside))
        }
        InInstruction::Mark => {
            if b == b'>' {
                return Move::Close(Sort::Instruction);
            }
            if b == b'?' {
                return Move::On(State::Instruction(InInstruction::Mark));
            }
            Move::On(State::Instruction(InInstruction::Inside))
        }
    }
}

fn closing(b: u8) -> Move
    ensures { result ≡ closing b }
{
    if b == b'/' {
        return Move::Next(State::Tag(InTag::Slash));
    }
    if b == b'>' {
        return Move::Close(Sort::StartTag);
    }
    Move::Here
}

fn behind(b: u8) -> Move
    ensures { result ≡ behind b }
{
    if is_blank(b) {
        return Move::On(State::Tag(InTag::Blank));
    }
    closing(b)
}

fn named(b: u8) -> Move
    ensures { result ≡ named b }
{
    if is_blank(b) {
        return Move::On(State::Tag(InTag::Named));
    }
    if b == b'=' {
        return Move::On(State::Tag(InTag::Equals));
    }
    Move::Here
}

fn is_quote(b: u8) -> bool
    ensures { result ≡ is_quote b }
{
    b == b'"' || b == b'\''
}

fn is_reference(b: u8) -> bool
    ensures { result ≡ is_reference b }
{
    is_name(b) || b == b'#'
}

// Behind `=`: blanks, then a quote.
fn equals(b: u8) -> Move
    ensures { result ≡ equals b }
{
    if is_blank(b) {
        return Move::On(State::Tag(InTag::Equals));
    }
    if is_quote(b) {
        return Move::On(State::Tag(InTag::Value(b)));
    }
    Move::Here
}

fn in_value(q: u8, b: u8) -> Move
    ensures { result ≡ in_value q b }
{
    if b == q {
        return Move::On(State::Tag(InTag::Behind));
    }
    if b == b'&' {
        return Move::Next(State::Tag(InTag::Reference(q)));
    }
    if b == b'<' {
        return Move::Here;
    }
    Move::On(State::Tag(InTag::Value(q)))
}

fn in_value_reference(q: u8, b: u8) -> Move
    ensures { result ≡ in_value_reference q b }
{
    if b == b';' {
        return Move::On(State::Tag(InTag::Value(q)));
    }
    if is_reference(b) {
        return Move::On(State::Tag(InTag::Reference(q)));
    }
    Move::Back
}

// Behind a blank in a tag: an attribute may begin.
fn behind_blank(b: u8) -> Move
    ensures { result ≡ behind_blank b }
{
    if is_blank(b) {
        return Move::On(State::Tag(InTag::Blank));
    }
    if begins_name(b) {
        return Move::Next(State::Tag(InTag::Attribute));
    }
    closing(b)
}

fn in_tag(s: InTag, b: u8) -> Move
    ensures { result ≡ in_tag s b }
{
    match s {
        InTag::Name => {
            if is_name(b) {
                return Move::On(State::Tag(InTag::Name));
            }
            behind(b)
        }
        InTag::Blank => behind_blank(b),
        InTag::Attribute => {
            if is_name(b) {
                return Move::On(State::Tag(InTag::Attribute));
            }
            named(b)
        }
        InTag::Named => named(b),
        InTag::Equals => equals(b),
        InTag::Value(q) => in_value(q, b),
        InTag::Reference(q) => in_value_reference(q, b),
        InTag::Behind => behind(b),
        InTag::Slash => {
            if b == b'>' {
                return Move::Close(Sort::EmptyTag);
            }
            Move::Back
        }
    }
}

fn behind_end(b: u8) -> Move
    ensures { result ≡ behind_end b }
{
    if is_blank(b) {
        return Move::On(State::EndTag(InEnd::Behind));
    }
    if b == b'>' {
        return Move::Close(Sort::EndTag);
    }
    Move::Here
}

fn in_end(s: InEnd, b: u8) -> Move
    ensures { result ≡ in_end s b }
{
    match s {
        InEnd::Opened => {
            if begins_name(b) {
                return Move::On(State::EndTag(InEnd::Name));
            }
            Move::Back
        }
        InEnd::Name => {
            if is_name(b) {
                return Move::On(State::EndTag(InEnd::Name));
            }
            behind_end(b)
        }
        InEnd::Behind => behind_end(b),
    }
}

fn in_reference(b: u8) -> Move
    ensures { result ≡ in_reference b }
{
    if b == b';' {
        return Move::Close(Sort::Reference);
    }
    if is_reference(b) {
        return Move::On(State::Reference);
    }
    Move::Back
}

fn at_begin(b: u8) -> Move
    ensures { result ≡ at_begin b }
{
    if b == b'<' {
        return Move::On(State::Opening(InOpening::Less));
    }
    if b == b'&' {
        return Move::On(State::Reference);
    }
    Move::Here
}

pub fn step(s: State, b: u8) -> Move
    ensures { result ≡ step s b }
{
    match s {
        State::Begin => at_begin(b),
        State::Opening(o) => in_opening(o, b),
        State::Comment(c) => in_comment(c, b),
        State::Data(d) => in_data(d, b),
        State::Instruction(i) => in_instruction(i, b),
        State::Tag(t) => in_tag(t, b),
        State::EndTag(e) => in_end(e, b),
        State::Reference => in_reference(b),
    }
}
