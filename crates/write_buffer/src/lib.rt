// Texts written into a lent buffer from a place on, as far as the buffer goes; what stands before and behind stays. Each writer returns the place behind
// its text, beyond the buffer's end too, so that one writing into an empty buffer measures the text.
#![tactic(auto)]

ghost use Rattle.std.specs.Prelude.{◌≡◌, [], ◌∷◌, ◌+◌, ◌≤◌, length};
ghost use Rattle.write_buffer.specs.Buffers.{lesser, last_place, Put};

// The lesser of two numbers.
#[tactic(auto, unfolding(crate::specs::Buffers::lesser))]
pub fn least(a: usize, b: usize) -> usize
    ensures { (result ≡ lesser a b) × (result ≤ a) × (result ≤ b) }
{
    a.min(b)
}

// The place n bytes behind another, as far as there are places.
#[tactic(auto, unfolding(crate::specs::Buffers::lesser))]
pub fn further(p: usize, n: usize) -> usize
    ensures { result ≡ lesser (p + n) last_place }
{
    p.saturating_add(n)
}

#[tactic(auto, using(crate::proofs::OverLaws::next_least), unfolding(crate::specs::Buffers::end_written, crate::specs::Buffers::over_from))]
pub fn put_byte(out: &mut [u8], from: usize, b: u8) -> usize
    ensures { Put (b ∷ []) 1 from out.old result out.new }
{
    let to = from.saturating_add(1);
    if from < out.len() {
        out[from] = b;
    }
    to
}

pub fn put_bytes(out: &mut [u8], from: usize, s: &[u8]) -> usize
    ensures { Put s.now (length s.now) from out.old result out.new }
{
    let mut to = from;
    for b in s {
        to = put_byte(out, to, *b);
    }
    to
}
