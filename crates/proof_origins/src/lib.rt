// Where the paper's rules begin, what text they are written as, and that nothing is lost on the way to them; there is no code but this.
#![tactic(auto)]

ghost use Rattle.std.specs.Prelude.{◌≡◌};

pub fn theorems_only() -> usize
    ensures { result ≡ 1 }
{
    1
}
