// Theorems: a drawing breaks a rule exactly where it is 21, and the rule and thing named are the first; there is no code but this.
#![tactic(auto)]

ghost use Rattle.std.specs.Prelude.{◌≡◌};

pub fn theorems_only() -> usize
    ensures { result ≡ 1 }
{
    1
}
