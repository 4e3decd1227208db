// The merge, exported.
ghost use Rattle.std.specs.Prelude.{◌≡◌, [], ◌∷◌};
ghost use Rattle.model.specs.Exports.{merge_exported};
ghost use Rattle.exports.specs.Plain.{outcome};

use crate::answer::{ANSWER_WORDS, Values, put};
use batch::call::merge;
use ids::refusal::Reason;
use refusal::batch::Counts;

impl Values for Counts {
    ghost values = { λ counts. counts.rows ∷ counts.succs ∷ [] };

    fn told(&self) -> [u64; 2] {
        [self.rows as u64, self.succs as u64]
    }
}

#[tactic(auto, unfolding(model::specs::Exports::merge_exported, model::specs::Exports::exported, model::specs::Exports::answer_sized))]
pub fn gantrysnip_merge(
    rows: &mut [u64],
    succs: &mut [u64],
    row_count: u64,
    succ_count: u64,
    batch: &[u64],
    op_count: u64,
    room: &mut [u64],
    answer: &mut [u64],
) -> u64
    ensures { outcome result answer.new (rows.new ∷ succs.new ∷ batch.now ∷ room.new ∷ []) ≡ merge_exported row_count rows.old succ_count succs.old op_count batch.now room.old answer.old }
{
    if answer.len() != ANSWER_WORDS {
        return Reason::Unsized.number();
    }
    let merged = merge(rows, succs, row_count, succ_count, batch, op_count, room);
    put(merged, answer)
}
