// What people do with drawings and logs, a command each: the first argument names it, standard input has what it works on.
//
//   drawing    a drawing: its text in the notation
//   map        a drawing: which node is which number, and where it stands
//   diagnose   a drawing: its number, the rule or check that is broken, and the place of what breaks it
//   judge V    a model's text and a log: lawful, or what the log is refused with, under version V
//   accounts V the same, and of a lawful log for each message a line with its four numbers
//   repair     a log that ended in the middle: what is kept, and the repaired log
//   log V      a model's text: its run under version V, as an XES log
//   nested     a model's text: nested, or the pool that is not, and the element at which it offends
//
// The version is 20 where none is given. A text or a drawing that is refused is told as the program `run` tells it. A command that there is not is said on standard error.
#![tactic(auto)]

use base_bytes::piece;
use tool_print::{argument, tell};

mod accounts;
mod diagnose;
mod drawing;
mod judge;
mod log;
mod map;
mod nested;
mod repair;

use diagnose::do_diagnose;
use drawing::do_drawing;
use judge::{do_accounts, do_judge};
use log::do_log;
use map::do_map;
use nested::do_nested;
use repair::do_repair;

// The argument that names the command.
const COMMAND: usize = 1;

// The one that names the version.
const VERSION: usize = 2;

// The bytes of the longest name that is looked at: no command has one as long.
const NAME: usize = 64;

fn tell_unknown(err: &impl Print, name: &[u8]) {
    tell(err, b"tool: there is no command '");
    tell(err, name);
    tell(err, b"'\n");
}

// The commands are not inlined here, so that the stack holds the blocks of one alone.
fn do_command(rt: &HostRuntime, name: &[u8]) {
    match name {
        b"drawing" => do_drawing(rt),
        b"map" => do_map(rt),
        b"diagnose" => do_diagnose(rt),
        b"judge" => do_judge(rt),
        b"accounts" => do_accounts(rt),
        b"repair" => do_repair(rt),
        b"log" => do_log(rt),
        b"nested" => do_nested(rt),
        _ => tell_unknown(&rt.stderr(), name),
    }
}

fn main(rt: HostRuntime) {
    let mut name = [0u8; NAME];
    let n = argument(&rt, COMMAND, &mut name);
    do_command(&rt, piece(&name, 0, n));
}
