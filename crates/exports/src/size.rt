// The documented sizes, so that a program need not write them down itself.
ghost use Rattle.std.specs.Prelude.{◌≡◌};
ghost use Rattle.model.specs.Exports.{size_of};

use ids::sizes::{
    ACTORS, ENTRY_WORDS, MAX_BATCH, MAX_ROWS, MAX_SUCCS, OP_WORDS, ROOM_WORDS, ROW_WORDS,
    SUCC_WORDS,
};

// By number; past the last, 0.
#[tactic(auto, unfolding(model::specs::Exports::size_of, model::specs::Sizes::max_rows, model::specs::Sizes::max_succs, model::specs::Sizes::max_batch, model::specs::Sizes::room_words))]
pub fn gantrysnip_size(which: u64) -> u64
    ensures { result ≡ size_of which }
{
    let sizes = [
        MAX_ROWS as u64,
        MAX_SUCCS as u64,
        MAX_BATCH as u64,
        ROW_WORDS as u64,
        SUCC_WORDS as u64,
        OP_WORDS as u64,
        ENTRY_WORDS as u64,
        ROOM_WORDS as u64,
        ACTORS,
    ];
    sizes.get(which as usize).copied().unwrap_or(0)
}
