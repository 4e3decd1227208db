// Further documented sizes; beside each, its name in the definitions.

// max_counter
pub const MAX_COUNTER: u64 = 4294967295;

// max_key
pub const MAX_KEY: u64 = 24;

// word_bytes
pub const WORD_BYTES: u64 = 8;
