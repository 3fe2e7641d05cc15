// Which node of a drawing is which number, as a definition; `draw_chart` writes it. There is no code but this.
#![tactic(auto)]

ghost use Rattle.std.specs.Prelude.{◌≡◌};

pub fn version() -> usize
    ensures { result ≡ 1 }
{
    1
}
