// The documented sizes; beside each, its name in the definitions.

// actors
pub const ACTORS: u64 = 64;

// row_words
pub const ROW_WORDS: usize = 12;

// succ_words
pub const SUCC_WORDS: usize = 4;

// entry_words
pub const ENTRY_WORDS: usize = 14;

// max_rows
pub const MAX_ROWS: usize = 4096;

// max_succs
pub const MAX_SUCCS: usize = 8192;

// op_words
pub const OP_WORDS: usize = 29;

// max_batch
pub const MAX_BATCH: usize = 256;

// max_preds
pub const MAX_PREDS: usize = 16;

// room_words
pub const ROOM_WORDS: usize = 65536;
