// The picture, exported.
ghost use Rattle.std.specs.Prelude.{◌≡◌, [], ◌∷◌};
ghost use Rattle.model.specs.Exports.{picture_exported};
ghost use Rattle.exports.specs.Plain.{outcome};

use crate::answer::{ANSWER_WORDS, Values, put};
use found_op::call::picture;
use ids::refusal::Reason;

// How many entries the picture has.
impl Values for usize {
    ghost values = { λ entries. entries ∷ [] };

    fn told(&self) -> [u64; 2] {
        [*self as u64, 0]
    }
}

#[tactic(auto, unfolding(model::specs::Exports::picture_exported, model::specs::Exports::exported, model::specs::Exports::answer_sized))]
pub fn gantrysnip_picture(
    rows: &[u64],
    succs: &[u64],
    row_count: u64,
    succ_count: u64,
    clock: &[u64],
    out: &mut [u64],
    room: &mut [u64],
    answer: &mut [u64],
) -> u64
    ensures { outcome result answer.new (rows.now ∷ succs.now ∷ clock.now ∷ out.new ∷ room.new ∷ []) ≡ picture_exported row_count rows.now succ_count succs.now clock.now out.old room.old answer.old }
{
    if answer.len() != ANSWER_WORDS {
        return Reason::Unsized.number();
    }
    let pictured = picture(rows, succs, row_count, succ_count, clock, out, room);
    put(pictured, answer)
}
