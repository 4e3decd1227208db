// The merge's call: anything may come in.
ghost use Rattle.std.specs.Prelude.{◌≡◌};
ghost use Rattle.model.specs.Calls.{merge_call};
ghost use Rattle.batch.specs.Answers.{answer_of, back};

use crate::merge::merge_or_refuse;
use ids::lent::{batch_sized, document_sized};
use ids::refusal::{Reason, Refusal};
use refusal::batch::Counts;
use wellformed::document::check_document;

// The counts of rows and successors, or why the batch is refused.
pub fn merge(
    rows: &mut [u64],
    succs: &mut [u64],
    row_count: u64,
    succ_count: u64,
    batch: &[u64],
    op_count: u64,
    room: &mut [u64],
) -> Result<Counts, Refusal>
    ensures { back (answer_of result) rows.new succs.new batch.now room.new ≡ merge_call row_count rows.old succ_count succs.old op_count batch.now room.old }
{
    if !document_sized(rows, succs, room) {
        return Err(Reason::Unsized.into());
    }
    let k = op_count as usize;
    if !batch_sized(k, batch) {
        return Err(Reason::Unsized.into());
    }
    if !check_document(rows, succs, row_count, succ_count, room) {
        return Err(Reason::Unformed.into());
    }
    let n = row_count as usize;
    let m = succ_count as usize;
    merge_or_refuse(rows, n, succs, m, batch, k, room)
}
