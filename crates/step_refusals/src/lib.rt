// "Numbers given back": what each of them says.
#![tactic(auto)]

use base_words::Word;

pub mod numbers;
