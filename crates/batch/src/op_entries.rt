// The successor entries of one operation, one for each of its predecessors.
ghost use Rattle.std.specs.Prelude.{◌≡◌, ◌++◌, ◌*◌, ◌+◌, ◌≤◌, length, drop};
ghost use Rattle.model.specs.Basic.{pieces};
ghost use Rattle.model.specs.Sizes.{succ_words};
ghost use Rattle.model.specs.Row.{preds_of};
ghost use Rattle.batch.specs.Entries.{counter_among, entry_by, entries_of};

use crate::entries::{counts, write_entry};
use ids::kinds::Action;
use ids::op::PREDS;
use ids::piece::Op;
use ids::table::{Ops, Rows};

// Is some row with this id a counter, of the document's or of the batch's?
fn counter_among(rows: &Rows<'_>, ops: &Ops<'_>, id: u64) -> bool
    ensures { result ≡ counter_among rows.now ops.now id }
{
    rows.iter().any(|row| counts(&row, id)) || ops.iter().any(|op| counts(&op, id))
}

// What the operation's entry for predecessor p depends on: only an Increment asks whether p is a counter.
fn counter_for(rows: &Rows<'_>, ops: &Ops<'_>, op: &Op<'_>, p: u64) -> bool
    ensures { entry_by result op.now p ≡ entry_by (counter_among rows.now ops.now p) op.now p }
{
    op.row().does(Action::Increment) && counter_among(rows, ops, p)
}

// The operation's entries behind the t that out, the working room, has; how many it has then. The room is written by index (01).
pub(crate) fn op_entries(
    rows: &Rows<'_>,
    ops: &Ops<'_>,
    op: &Op<'_>,
    out: &mut [u64],
    t: usize,
) -> usize
    requires { (t + length (preds_of op.now)) * succ_words ≤ length out.old }
    ensures { (result ≡ t + length (preds_of op.now)) × (pieces succ_words result out.new ≡ pieces succ_words t out.old ++ entries_of (counter_among rows.now ops.now) op.now) × (drop (result * succ_words) out.new ≡ drop (result * succ_words) out.old) }
{
    let count = op.preds().len();
    for q in 0..count {
        let p = op.word(PREDS + q);
        write_entry(op, p, counter_for(rows, ops, op, p), out, t + q);
    }
    t + count
}
