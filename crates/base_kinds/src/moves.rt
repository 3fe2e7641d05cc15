// The rules of figures 7 to 9 as rows of a table.
ghost use Rattle.std.specs.Prelude.{◌≡◌};
ghost use Rattle.base_kinds.specs.Moves.{move_of};

use base_words::Word;

// The numbers of the kinds, as they stand in a table.
pub const START: Word = 1;

pub const START_RCV: Word = 2;

pub const END: Word = 3;

pub const TERMINATE: Word = 4;

pub const END_SND: Word = 5;

pub const INTER_RCV: Word = 6;

pub const INTER_SND: Word = 7;

pub const EVENT_BASED: Word = 8;

pub const AND_SPLIT: Word = 9;

pub const AND_JOIN: Word = 10;

pub const XOR_JOIN: Word = 11;

pub const XOR_SPLIT: Word = 12;

pub const TASK: Word = 13;

pub const TASK_RCV: Word = 14;

pub const TASK_SND: Word = 15;

// The cells: nothing; it does so; modes; edges; counts; also.
pub const O: Word = 0;

pub const ON: Word = 1;

pub const A: Word = 1;

pub const NA_C: Word = 2;

pub const NA_NC: Word = 3;

pub const NA: Word = NA_C;

pub const EVERY: Word = 1;

pub const BRANCH: Word = 2;

pub const UP: Word = 1;

pub const DOWN: Word = 2;

pub const MAKES: Word = 1;

pub const CLEARS: Word = 2;

#[derive(Clone, Copy)]
pub struct Move {
    pub kind: Word,
    pub mode: Word,
    pub phase: Word,
    pub takes: Word,
    pub puts: Word,
    pub asks: Word,
    pub receives: Word,
    pub assigns: Word,
    pub sends: Word,
    pub active: Word,
    pub ready: Word,
    pub alone: Word,
    pub also: Word,
}

// What a row does not name is nothing.
const NO_RULE: Move = Move {
    kind: O,
    mode: O,
    phase: 0,
    takes: O,
    puts: O,
    asks: O,
    receives: O,
    assigns: O,
    sends: O,
    active: O,
    ready: O,
    alone: O,
    also: O,
};

const P_START: Move = Move {
    kind: START,
    takes: EVERY,
    puts: EVERY,
    ..NO_RULE
};

const P_STARTRCV: Move = Move {
    kind: START_RCV,
    puts: EVERY,
    receives: ON,
    also: MAKES,
    ..NO_RULE
};

const P_END: Move = Move {
    kind: END,
    takes: EVERY,
    ..NO_RULE
};

const P_TERMINATE: Move = Move {
    kind: TERMINATE,
    takes: EVERY,
    also: CLEARS,
    ..NO_RULE
};

const P_ENDSND: Move = Move {
    kind: END_SND,
    takes: EVERY,
    sends: ON,
    ..NO_RULE
};

const P_INTERRCV: Move = Move {
    kind: INTER_RCV,
    takes: EVERY,
    puts: EVERY,
    receives: ON,
    ..NO_RULE
};

const P_INTERSND: Move = Move {
    kind: INTER_SND,
    takes: EVERY,
    puts: EVERY,
    sends: ON,
    ..NO_RULE
};

const P_EVENTG: Move = Move {
    kind: EVENT_BASED,
    takes: EVERY,
    puts: BRANCH,
    receives: ON,
    ..NO_RULE
};

const P_ANDSPLIT: Move = Move {
    kind: AND_SPLIT,
    takes: EVERY,
    puts: EVERY,
    ..NO_RULE
};

const P_ANDJOIN: Move = Move {
    kind: AND_JOIN,
    takes: EVERY,
    puts: EVERY,
    ..NO_RULE
};

const P_XORJOIN: Move = Move {
    kind: XOR_JOIN,
    takes: BRANCH,
    puts: EVERY,
    ..NO_RULE
};

const P_XORSPLIT: Move = Move {
    kind: XOR_SPLIT,
    takes: EVERY,
    puts: BRANCH,
    asks: ON,
    ..NO_RULE
};

const P_TASK_A: Move = Move {
    kind: TASK,
    mode: A,
    takes: EVERY,
    puts: EVERY,
    asks: ON,
    assigns: ON,
    ..NO_RULE
};

const P_TASKRCV_A: Move = Move {
    kind: TASK_RCV,
    mode: A,
    takes: EVERY,
    puts: EVERY,
    asks: ON,
    receives: ON,
    assigns: ON,
    ..NO_RULE
};

const P_TASKSND_A: Move = Move {
    kind: TASK_SND,
    mode: A,
    takes: EVERY,
    puts: EVERY,
    asks: ON,
    assigns: ON,
    sends: ON,
    ..NO_RULE
};

const P_TASK_N1: Move = Move {
    kind: TASK,
    mode: NA,
    phase: 1,
    takes: EVERY,
    asks: ON,
    active: UP,
    alone: ON,
    ..NO_RULE
};

const P_TASKRCV_N1: Move = Move {
    kind: TASK_RCV,
    mode: NA,
    phase: 1,
    takes: EVERY,
    asks: ON,
    active: UP,
    alone: ON,
    ..NO_RULE
};

const P_TASKSND_N1: Move = Move {
    kind: TASK_SND,
    mode: NA,
    phase: 1,
    takes: EVERY,
    asks: ON,
    active: UP,
    alone: ON,
    ..NO_RULE
};

const P_TASK_N2: Move = Move {
    kind: TASK,
    mode: NA,
    phase: 3,
    puts: EVERY,
    assigns: ON,
    active: DOWN,
    ..NO_RULE
};

const P_TASKRCV_N2: Move = Move {
    kind: TASK_RCV,
    mode: NA,
    phase: 2,
    receives: ON,
    active: DOWN,
    ready: UP,
    ..NO_RULE
};

const P_TASKRCV_N3: Move = Move {
    kind: TASK_RCV,
    mode: NA,
    phase: 3,
    puts: EVERY,
    assigns: ON,
    ready: DOWN,
    ..NO_RULE
};

const P_TASKSND_N2: Move = Move {
    kind: TASK_SND,
    mode: NA,
    phase: 2,
    assigns: ON,
    active: DOWN,
    ready: UP,
    ..NO_RULE
};

const P_TASKSND_N3: Move = Move {
    kind: TASK_SND,
    mode: NA,
    phase: 3,
    puts: EVERY,
    sends: ON,
    ready: DOWN,
    ..NO_RULE
};

// The row of the rule of a kind, mode and phase.
pub fn move_of(k: Word, m: Word, p: Word) -> Move
    ensures { result ≡ move_of k m p }
{
    match (m, p, k) {
        (O, 0, START) => P_START,
        (O, 0, START_RCV) => P_STARTRCV,
        (O, 0, END) => P_END,
        (O, 0, TERMINATE) => P_TERMINATE,
        (O, 0, END_SND) => P_ENDSND,
        (O, 0, INTER_RCV) => P_INTERRCV,
        (O, 0, INTER_SND) => P_INTERSND,
        (O, 0, EVENT_BASED) => P_EVENTG,
        (O, 0, AND_SPLIT) => P_ANDSPLIT,
        (O, 0, AND_JOIN) => P_ANDJOIN,
        (O, 0, XOR_JOIN) => P_XORJOIN,
        (O, 0, XOR_SPLIT) => P_XORSPLIT,
        (A, 0, TASK) => P_TASK_A,
        (A, 0, TASK_RCV) => P_TASKRCV_A,
        (A, 0, TASK_SND) => P_TASKSND_A,
        (NA_C | NA_NC, 1, TASK) => P_TASK_N1,
        (NA_C | NA_NC, 1, TASK_RCV) => P_TASKRCV_N1,
        (NA_C | NA_NC, 1, TASK_SND) => P_TASKSND_N1,
        (NA_C | NA_NC, 3, TASK) => P_TASK_N2,
        (NA_C | NA_NC, 2, TASK_RCV) => P_TASKRCV_N2,
        (NA_C | NA_NC, 3, TASK_RCV) => P_TASKRCV_N3,
        (NA_C | NA_NC, 2, TASK_SND) => P_TASKSND_N2,
        (NA_C | NA_NC, 3, TASK_SND) => P_TASKSND_N3,
        _ => NO_RULE,
    }
}
