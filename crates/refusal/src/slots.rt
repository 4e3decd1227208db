// Tables with a slot for each id, many ids to a slot. They are arrays of a fixed size, since a call takes no heap.
ghost use Rattle.std.specs.Prelude.{◌≡◌, ◌<◌};
ghost use Rattle.refusal.specs.Slots.{slots, slot_of};

use ids::op_id::OpId;
use ids::sizes::MAX_ROWS;

// slots
pub(crate) const SLOTS: usize = MAX_ROWS;

// apart
const APART: u64 = 1009;

#[tactic(auto, unfolding(crate::specs::Slots::slot_of, crate::specs::Slots::apart, crate::specs::Slots::slots, model::specs::Sizes::max_rows))]
pub(crate) fn slot(id: u64) -> usize
    ensures same { result ≡ slot_of id }
    ensures small { result < slots }
{
    let id = OpId(id);
    (id.counter() + id.actor() * APART) as usize % SLOTS
}
