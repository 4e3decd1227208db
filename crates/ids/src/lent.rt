// The lent slices of a call: have they their documented sizes, and are the claims within the limits? And the working room, cleared.
ghost use Rattle.std.specs.Prelude.{◌≡◌, ◌||◌, ltb};
ghost use Rattle.model.specs.Sizes.{max_rows, max_succs};
ghost use Rattle.model.specs.Calls.{document_sized, batch_sized, clock_sized, out_sized, cleared};

use crate::sizes::{
    ACTORS, ENTRY_WORDS, MAX_ROWS, MAX_SUCCS, OP_WORDS, ROOM_WORDS, ROW_WORDS, SUCC_WORDS,
};

#[tactic(auto, unfolding(model::specs::Calls::document_sized, model::specs::Sizes::max_rows, model::specs::Sizes::max_succs, model::specs::Sizes::room_words))]
pub fn document_sized(rows: &[u64], succs: &[u64], room: &[u64]) -> bool
    ensures { result ≡ document_sized rows.now succs.now room.now }
{
    rows.len() == MAX_ROWS * ROW_WORDS
        && succs.len() == MAX_SUCCS * SUCC_WORDS
        && room.len() == ROOM_WORDS
}

// Exactly the words of each claimed operation. A product could wrap, so the slice is divided.
pub fn batch_sized(k: usize, batch: &[u64]) -> bool
    ensures { result ≡ batch_sized k batch.now }
{
    batch.len() % OP_WORDS == 0 && batch.len() / OP_WORDS == k
}

// A word for each actor, or no clock.
#[tactic(auto, unfolding(model::specs::Calls::clock_sized))]
pub fn clock_sized(clock: &[u64]) -> bool
    ensures { result ≡ clock_sized clock.now }
{
    clock.is_empty() || clock.len() == ACTORS as usize
}

// At least one entry for each claimed row. A claim over the limit is refused by its number: its product could wrap.
#[tactic(auto, unfolding(model::specs::Calls::out_sized, model::specs::Sizes::max_rows))]
pub fn out_sized(n: usize, out: &[u64]) -> bool
    ensures { result ≡ out_sized n out.now }
{
    MAX_ROWS < n || n * ENTRY_WORDS <= out.len()
}

#[tactic(auto, unfolding(model::specs::Sizes::max_rows, model::specs::Sizes::max_succs))]
pub fn over_limits(n: usize, m: usize) -> bool
    ensures { result ≡ (ltb max_rows n || ltb max_succs m) }
{
    MAX_ROWS < n || MAX_SUCCS < m
}

pub fn clear(room: &mut [u64])
    ensures { room.new ≡ cleared room.old }
{
    room.fill(0);
}
