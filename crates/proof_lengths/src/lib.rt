// Theorems: in a table that breaks no limit and no check exits are few, and its text is within the greatest length of a text; there is no code but this.
#![tactic(auto)]

ghost use Rattle.std.specs.Prelude.{◌≡◌};

pub fn theorems_only() -> usize
    ensures { result ≡ 1 }
{
    1
}
