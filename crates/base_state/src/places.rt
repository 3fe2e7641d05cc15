// Where things stand in a state, one block of words: the instances, then the queues. Each place is defined here and nowhere else.
use base_words::counts::{EDGES, FIELDS, INSTANCES, MESSAGES, NAMES, POOLS, STORES, TASKS, VALUES};

// An instance: tokens, active counts, ready counts, which fields are defined, values.
pub const ACTIVE: usize = EDGES as usize;

pub const READY: usize = ACTIVE + TASKS as usize;

pub const DEFINED: usize = READY + TASKS as usize;

pub const FIELD_VALUES: usize = DEFINED + 1;

pub const INSTANCE_WORDS: usize = DEFINED + 2 * FIELDS as usize;

// The instances: for each pool how many are made, then the instances of each pool.
pub const FIRST_INSTANCE: usize = POOLS as usize;

pub const POOL_INSTANCES: usize = INSTANCE_WORDS * INSTANCES as usize;

// What all instances share: the stores, each as a field has it, then the version.
pub const SHARED: usize = FIRST_INSTANCE + POOL_INSTANCES * POOLS as usize;

pub const STORE_WORDS: usize = 2 * STORES as usize;

pub const SHARED_WORDS: usize = STORE_WORDS + 1;

pub const VERSION: usize = SHARED + STORE_WORDS;

pub const INSTANCES_WORDS: usize = SHARED + SHARED_WORDS;

// What a step sees: an instance, and behind it what all share.
pub const COPY_WORDS: usize = INSTANCE_WORDS + SHARED_WORDS;

pub const VERSION_SEEN: usize = INSTANCE_WORDS + STORE_WORDS;

// The queues, from their own start: for each name the count of its messages, then the messages.
// Of a message: its length, then its values; of a queue: its count, then its messages.
pub const FIRST_VALUE: usize = 1;

pub const FIRST_SLOT: usize = 1;

pub const SLOT_WORDS: usize = FIRST_VALUE + VALUES as usize;

pub const QUEUE_WORDS: usize = FIRST_SLOT + SLOT_WORDS * MESSAGES as usize;

pub const STATE_WORDS: usize = INSTANCES_WORDS + QUEUE_WORDS * NAMES as usize;
