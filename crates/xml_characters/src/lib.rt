// The classes of bytes of an XML text; its references and the characters that they say.
#![tactic(auto)]

ghost use Rattle.std.specs.Prelude.{◌≡◌};
ghost use Rattle.xml_characters.specs.Names.{is_blank, is_control, begins_name, is_name};

use base_bytes::is_letter;

pub mod references;

#[tactic(auto, using(std::proofs::lemmas::Bool::Decides::nat_tests), unfolding(crate::specs::Names::is_blank))]
pub fn is_blank(b: u8) -> bool
    ensures { result ≡ is_blank b }
{
    matches!(b, b' ' | b'\t' | b'\r' | b'\n')
}

pub fn is_control(b: u8) -> bool
    ensures { result ≡ is_control b }
{
    b < 32 && !is_blank(b)
}

#[tactic(auto, using(std::proofs::lemmas::Bool::Decides::nat_tests), unfolding(crate::specs::Names::begins_name))]
pub fn begins_name(b: u8) -> bool
    ensures { result ≡ begins_name b }
{
    is_letter(b) || b == b'_' || b == b':' || 128 <= b
}

// Its classes stand in the order in which they are met; from '0' to ':' are the digits and the colon.
#[tactic(auto, using(std::proofs::lemmas::Bool::Decides::nat_tests), unfolding(crate::specs::Names::is_name, crate::specs::Names::begins_name, base_bytes::specs::Bytes::is_letter, base_bytes::specs::Bytes::is_digit, base_bytes::specs::Bytes::between))]
pub fn is_name(b: u8) -> bool
    ensures { result ≡ is_name b }
{
    matches!(b, b'a'..=b'z' | b'-' | b'.' | b'0'..=b':' | b'A'..=b'Z' | b'_' | 128..=255)
}
