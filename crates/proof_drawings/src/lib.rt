// Theorems: a drawing that is accepted gives the table that its text in the notation gives; there is no code but this.
#![tactic(auto)]

ghost use Rattle.std.specs.Prelude.{◌≡◌};

pub fn theorems_only() -> usize
    ensures { result ≡ 1 }
{
    1
}
