// The engine takes exactly the transitions of the paper's rules; there is no code but this.
#![tactic(auto)]

ghost use Rattle.std.specs.Prelude.{◌≡◌};

pub fn theorems_only() -> usize
    ensures { result ≡ 1 }
{
    1
}
