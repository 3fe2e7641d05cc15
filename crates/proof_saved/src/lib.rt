// Theorems: a state that fitted a model as its text says it fits the model as it is rewritten; there is no code but this.
#![tactic(auto)]

ghost use Rattle.std.specs.Prelude.{◌≡◌};

pub fn theorems_only() -> usize
    ensures { result ≡ 1 }
{
    1
}
