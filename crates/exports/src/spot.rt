// The spot, exported.
ghost use Rattle.std.specs.Prelude.{◌≡◌, [], ◌∷◌};
ghost use Rattle.model.specs.Exports.{spot_exported};
ghost use Rattle.insert.specs.Spotted.{values_of};
ghost use Rattle.exports.specs.Plain.{outcome};

use crate::answer::{ANSWER_WORDS, Values, put};
use ids::refusal::Reason;
use insert::call::spot;
use insert::spot::Spot;

impl Values for Spot {
    ghost values = { values_of };

    fn told(&self) -> [u64; 2] {
        [self.element, self.place as u64]
    }
}

#[tactic(auto, unfolding(model::specs::Exports::spot_exported, model::specs::Exports::exported, model::specs::Exports::answer_sized))]
pub fn gantrysnip_spot(
    rows: &[u64],
    succs: &[u64],
    row_count: u64,
    succ_count: u64,
    clock: &[u64],
    object: u64,
    target: u64,
    room: &mut [u64],
    answer: &mut [u64],
) -> u64
    ensures { outcome result answer.new (rows.now ∷ succs.now ∷ clock.now ∷ room.new ∷ []) ≡ spot_exported row_count rows.now succ_count succs.now clock.now object target room.old answer.old }
{
    if answer.len() != ANSWER_WORDS {
        return Reason::Unsized.number();
    }
    let placed = spot(
        rows, succs, row_count, succ_count, clock, object, target, room,
    );
    put(placed, answer)
}
