// Where things stand in a table, one block of words: the pool count, then the pools. Each place is defined here and nowhere else.
use base_words::Word;
use base_words::counts::{ASSIGNMENTS, BRANCHES, ELEMENTS, POOLS, VALUES};

// An operand: 0 and a number, or 1 and a field.
pub const OPERAND_WORDS: usize = 2;

pub const A_FIELD: Word = 1;

// its number, or the number of its field
pub const OPERAND_NUMBER: usize = 1;

// An expression, an item of a message or a condition: its form, then two operands.
pub const FORM: usize = 0;

pub const LEFT: usize = 1;

pub const RIGHT: usize = LEFT + OPERAND_WORDS;

pub const EXPRESSION_WORDS: usize = RIGHT + OPERAND_WORDS;

// Forms of an expression, and of a template's item: an operand alone, a sum, a difference, a bind.
pub const SINGLE: Word = 1;

pub const PLUS: Word = 2;

pub const MINUS: Word = 3;

pub const BINDING: Word = 4;

// Forms of a condition: `true`, `default`, `=`, `<`.
pub const ALWAYS: Word = 1;

pub const DEFAULT: Word = 2;

pub const EQUALS: Word = 3;

pub const BELOW: Word = 4;

// An element: kind, task number, mode, entries, exits, conditions, messages, assignments.
pub const KIND: usize = 0;

pub const TASK: usize = 1;

pub const MODE: usize = 2;

pub const ENTRIES: usize = 3;

// Of a list of edges: its count, then the edges.
pub const FIRST_EDGE: usize = 1;

pub const EXITS: usize = ENTRIES + FIRST_EDGE + BRANCHES as usize;

pub const CONDITIONS: usize = EXITS + FIRST_EDGE + BRANCHES as usize;

// Of a message: name, length, items.
pub const MESSAGE_LENGTH: usize = 1;

pub const FIRST_ITEM: usize = 2;

pub const MESSAGE_WORDS: usize = FIRST_ITEM + EXPRESSION_WORDS * VALUES as usize;

pub const MESSAGES: usize = CONDITIONS + EXPRESSION_WORDS * BRANCHES as usize;

// Of an assignment: field, expression.
pub const ASSIGNED: usize = 1;

pub const ASSIGNMENT_WORDS: usize = ASSIGNED + EXPRESSION_WORDS;

pub const ASSIGNMENT_COUNT: usize = MESSAGES + MESSAGE_WORDS * BRANCHES as usize;

pub const FIRST_ASSIGNMENT: usize = ASSIGNMENT_COUNT + 1;

pub const ELEMENT_WORDS: usize = FIRST_ASSIGNMENT + ASSIGNMENT_WORDS * ASSIGNMENTS as usize;

// A pool: number, limit, element count, elements. The pool count stands before the pools.
pub const LIMIT: usize = 1;

pub const ELEMENT_COUNT: usize = 2;

pub const FIRST_ELEMENT: usize = 3;

pub const POOL_WORDS: usize = FIRST_ELEMENT + ELEMENT_WORDS * ELEMENTS as usize;

pub const POOL_COUNT: usize = 0;

pub const FIRST_POOL: usize = 1;

pub const TABLE_WORDS: usize = FIRST_POOL + POOL_WORDS * POOLS as usize;
