// The picture's call: anything may come in.
ghost use Rattle.std.specs.Prelude.{◌≡◌, ◌&&◌};
ghost use Rattle.model.specs.Calls.{document_sized, clock_sized, out_sized, picture_call};
ghost use Rattle.found_op.specs.Answers.{answer_of, back};

use crate::picture::show;
use ids::lent::{clock_sized, document_sized, out_sized};
use ids::refusal::{Reason, Refusal};
use ids::table::{Rows, Succs};
use wellformed::document::check_document;

// Have all lent slices their documented sizes?
fn sized(rows: &[u64], n: usize, succs: &[u64], clock: &[u64], out: &[u64], room: &[u64]) -> bool
    ensures { result ≡ (document_sized rows.now succs.now room.now && clock_sized clock.now && out_sized n out.now) }
{
    document_sized(rows, succs, room) && clock_sized(clock) && out_sized(n, out)
}

// How many entries the picture has, or why it is refused.
#[tactic(auto, using(crate::proofs::Calls::misfit_is))]
pub fn picture(
    rows: &[u64],
    succs: &[u64],
    row_count: u64,
    succ_count: u64,
    clock: &[u64],
    out: &mut [u64],
    room: &mut [u64],
) -> Result<usize, Refusal>
    ensures { back (answer_of result) rows.now succs.now clock.now out.new room.new ≡ picture_call row_count rows.now succ_count succs.now clock.now out.old room.old }
{
    let n = row_count as usize;
    let m = succ_count as usize;
    if !sized(rows, n, succs, clock, out, room) {
        return Err(Reason::Unsized.into());
    }
    if !check_document(rows, succs, row_count, succ_count, room) {
        return Err(Reason::Unformed.into());
    }
    Ok(show(&Rows::new(rows, n), &Succs::new(succs, m), clock, out))
}
