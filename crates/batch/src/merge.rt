// The merge of a document whose slices fit: checks first, then successors and rows. They stay lent slices with their counts in use, since
// rows and successors are written and shifted by index (01).
ghost use Rattle.std.specs.Prelude.{◌≡◌};
ghost use Rattle.model.specs.Calls.{document_in, batch_in, over, cleared, merge_end};
ghost use Rattle.model.specs.Document.{merged};
ghost use Rattle.model.specs.Refusal.{batch_refusal};
ghost use Rattle.batch.specs.Answers.{answer_of, back, Fitting, Merging};

use crate::write_rows::write_rows;
use crate::write_succs::write_succs;
use ids::lent::clear;
use ids::refusal::Refusal;
use refusal::batch::{Counts, check_batch};

// The accepted batch's successors and rows, in their places; the room is cleared.
fn write_merged(
    rows: &mut [u64],
    n: usize,
    succs: &mut [u64],
    m: usize,
    ops: &[u64],
    k: usize,
    room: &mut [u64],
)
    requires { Merging n rows.old m succs.old k ops.now room.old }
    ensures { (rows.new ≡ over rows.old (merged (document_in n rows.old m succs.old) (batch_in k ops.now)).rows) × (succs.new ≡ over succs.old (merged (document_in n rows.old m succs.old) (batch_in k ops.now)).succs) × (room.new ≡ cleared room.old) }
{
    write_succs(rows, n, succs, m, ops, k, room);
    write_rows(rows, n, ops, k, room);
    clear(room);
}

// The rest of the call, where the document is well-formed; the room is clear.
pub(crate) fn merge_or_refuse(
    rows: &mut [u64],
    n: usize,
    succs: &mut [u64],
    m: usize,
    ops: &[u64],
    k: usize,
    room: &mut [u64],
) -> Result<Counts, Refusal>
    requires { Fitting n rows.old m succs.old k ops.now room.old × (room.old ≡ cleared room.old) }
    ensures { back (answer_of result) rows.new succs.new ops.now room.new ≡ merge_end (batch_refusal (document_in n rows.old m succs.old) (batch_in k ops.now)) (merged (document_in n rows.old m succs.old) (batch_in k ops.now)) rows.old succs.old ops.now room.old }
{
    let counts = check_batch(rows, n, succs, m, ops, k)?;
    write_merged(rows, n, succs, m, ops, k, room);
    Ok(counts)
}
