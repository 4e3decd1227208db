// The spot's call: anything may come in, as slices and numbers (01's public calls).
ghost use Rattle.std.specs.Prelude.{◌≡◌};
ghost use Rattle.model.specs.Calls.{spot_call};
ghost use Rattle.insert.specs.Spotted.{placed_answer, back};

use crate::spot::{Spot, insertion_spot};
use ids::lent::{clock_sized, document_sized};
use ids::refusal::{Reason, Refusal};
use ids::table::Table;
use wellformed::document::check_document;

#[tactic(auto, unfolding(model::specs::Calls::spot_call, model::specs::Calls::claim_refusal, model::specs::Calls::document_refusal, model::specs::Calls::spot_answer, wellformed::specs::Document::check_call, wellformed::specs::Document::fits_claims, crate::specs::Spotted::spot_of))]
pub fn spot(
    rows: &[u64],
    succs: &[u64],
    row_count: u64,
    succ_count: u64,
    clock: &[u64],
    object: u64,
    target: u64,
    room: &mut [u64],
) -> Result<Spot, Refusal>
    ensures { back (placed_answer result) rows.now succs.now clock.now room.new ≡ spot_call row_count rows.now succ_count succs.now clock.now object target room.old }
{
    if !document_sized(rows, succs, room) || !clock_sized(clock) {
        return Err(Reason::Unsized.into());
    }
    if !check_document(rows, succs, row_count, succ_count, room) {
        return Err(Reason::Unformed.into());
    }
    let rows = Table::new(rows, row_count as usize);
    let succs = Table::new(succs, succ_count as usize);
    insertion_spot(&rows, &succs, clock, object, target as usize)
}
