// Reads a model's text from standard input, runs it from its fresh state and writes a line for each step. The version is its first argument, 20 where it has none.
#![tactic(auto)]

use base_state::places::STATE_WORDS;
use base_table::places::TABLE_WORDS;
use base_words::Word;
use base_words::counts::TEXT_MOST;
use base_words::numbers::ACCEPTED;
use std::env::Env;
use tool_print::{STEPS, asked_version, read_full, tell_fresh, tell_fresh_run, tell_read};

// The argument that names the version.
const VERSION: usize = 1;

// One byte more than the longest text: what fills it is refused for its length.
const ROOM: usize = TEXT_MOST + 1;

fn run(
    rt: &(impl Print + Env),
    text: &[u8],
    t: &mut [Word; TABLE_WORDS],
    z: &mut [Word; STATE_WORDS],
) {
    let r = tell_read(rt, text, t);
    if r.number != 0 {
        return;
    }
    let number = tell_fresh(rt, t, asked_version(rt, VERSION), z);
    if number == ACCEPTED {
        tell_fresh_run(rt, t, z, STEPS);
    }
}

fn main(rt: HostRuntime) {
    let mut t: [Word; TABLE_WORDS] = [0; TABLE_WORDS];
    let mut z: [Word; STATE_WORDS] = [0; STATE_WORDS];
    let mut text: [u8; ROOM] = [0; ROOM];
    let n = read_full(&rt, &mut text);
    run(&rt, &text[..n], &mut t, &mut z);
}
