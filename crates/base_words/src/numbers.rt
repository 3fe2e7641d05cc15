// "Numbers given back" of document 01, and those of document 02, each once.
use super::Word;

// accepted
pub const ACCEPTED: Word = 0;

// text or drawing above 65,536 bytes
pub const TOO_LONG: Word = 1;

// the token at this place (or the text's end) continues no text of the notation
pub const MISPLACED: Word = 2;

// a number is outside its range or a count above it
pub const EXCESSIVE: Word = 3;

// a model check is broken
pub const CHECK_BROKEN: Word = 4;

// the writer's buffer is shorter than the text
pub const TOO_SHORT: Word = 5;

// listing: no accepted step with that ordinal
pub const NOT_LISTED: Word = 6;

// the table breaks a limit or check, or the state doesn't fit the table and the limits
pub const BAD: Word = 10;

// no such pool, instance, element, phase or branch
pub const NO_SUCH: Word = 11;

// tokens or task counts don't permit the step
pub const NOT_PERMITTED: Word = 12;

// condition not true, or an undefined value in condition, template, assignment or message
pub const NOT_TRUE: Word = 13;

// values don't match, or were given to a step that receives nothing
pub const NOT_MATCHING: Word = 14;

// no equal message queued
pub const NOT_QUEUED: Word = 15;

// startRcv: the pool's limit is reached
pub const LIMIT_REACHED: Word = 16;

// the queue sent or posted to holds 64
pub const QUEUE_FULL: Word = 17;

// an edge or task count, after the taking, would pass 255
pub const WOULD_PASS: Word = 18;

// post: name above 15 or more than 4 values
pub const NOT_POSTABLE: Word = 19;

// drawing: not the XML named, or nested deeper
pub const NOT_XML: Word = 20;

// drawing: an element that is not run, or another fault of what is drawn
pub const NOT_RUN: Word = 21;

// poll: more than 64 items
pub const TOO_MANY: Word = 22;

// judge: not such a log, or longer
pub const NOT_A_LOG: Word = 23;

// judge: the event at fault
pub const AT_FAULT: Word = 24;

// another version than 10 or 20, asked for or in a state
pub const OTHER_VERSION: Word = 25;

// the number of records isn't the number of pools, or they don't agree with the state
pub const NOT_COUNTED: Word = 26;

// repair: the text breaks off before the trace opens, is no such log at an earlier place than its end, or is longer
pub const NOT_CUT: Word = 27;

// reading: no edge or element number free for an endSnd
pub const NONE_FREE: Word = 28;

// nested: the pool that is not nested
pub const NOT_NESTED: Word = 29;
