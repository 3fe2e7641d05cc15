// The kinds, as they are noted of a node.
use base_kinds::moves;
use draw_things::things;
use draw_things::things::Note;

pub const START: Note = moves::START as Note;

pub const START_RCV: Note = moves::START_RCV as Note;

pub const END: Note = moves::END as Note;

pub const TERMINATE: Note = moves::TERMINATE as Note;

pub const END_SND: Note = moves::END_SND as Note;

pub const INTER_RCV: Note = moves::INTER_RCV as Note;

pub const INTER_SND: Note = moves::INTER_SND as Note;

pub const EVENT_BASED: Note = moves::EVENT_BASED as Note;

pub const AND_SPLIT: Note = moves::AND_SPLIT as Note;

pub const AND_JOIN: Note = moves::AND_JOIN as Note;

pub const XOR_JOIN: Note = moves::XOR_JOIN as Note;

pub const XOR_SPLIT: Note = moves::XOR_SPLIT as Note;

pub const TASK: Note = moves::TASK as Note;

pub const TASK_RCV: Note = moves::TASK_RCV as Note;

pub const TASK_SND: Note = moves::TASK_SND as Note;

pub const BRANCH: Note = things::BRANCH as Note;
