// Theorems: the three demands, that each promise allows one result, that no call answers 10 to what the engine made, the round trip of texts and tables; there is no code but this.
#![tactic(auto)]

ghost use Rattle.std.specs.Prelude.{◌≡◌};

pub fn theorems_only() -> usize
    ensures { result ≡ 1 }
{
    1
}
