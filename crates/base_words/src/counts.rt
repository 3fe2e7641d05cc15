// "Greatest counts" of document 01, each once. Whatever is counted from 0 has its count here: names 0 to 15 are 16.
use super::Word;

pub const TEXT_MOST: usize = 65536;

pub const POOLS: Word = 4;

pub const ELEMENTS: Word = 32;

pub const FEWEST: Word = 2;

pub const BRANCHES: Word = 8;

pub const POOL_NUMBERS: Word = 9;

pub const EDGES: Word = 48;

pub const TASKS: Word = 16;

pub const NAMES: Word = 16;

pub const INSTANCES: Word = 16;

pub const FIELDS: Word = 16;

pub const STORES: Word = 16;

pub const NAMED: Word = FIELDS + STORES;

pub const VALUES: Word = 4;

pub const ASSIGNMENTS: Word = 4;

pub const MESSAGES: Word = 64;

pub const COUNT_MOST: Word = 255;
