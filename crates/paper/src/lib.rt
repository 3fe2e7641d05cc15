// The rules of the paper, as relations over its own syntax and states; there is no code but this.
#![tactic(auto)]

ghost use Rattle.std.specs.Prelude.{◌≡◌};

pub fn definitions_only() -> usize
    ensures { result ≡ 1 }
{
    1
}
