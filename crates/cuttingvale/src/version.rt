// Which library it is: its version, and the number of its layouts.
ghost use Rattle.std.specs.Prelude.{◌≡◌};
ghost use Rattle.cuttingvale.specs.Release.{layouts, release};

use base_words::Word;

// The version in the file VERSION: 10,000 for its first number, 100 for its second, 1 for its third.
pub fn cv_version() -> Word
    ensures { result ≡ release }
{
    20000
}

// The header refers to this name: where a table, a state or what crosses in a call is laid out otherwise, the name has another number, and a program of the other header does not link.
pub fn cv_abi_4() -> Word
    ensures { result ≡ layouts }
{
    4
}
