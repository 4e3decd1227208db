// The successors of an accepted batch, put among the document's: a lent slice that is shifted by index, with its entries in use (01).
ghost use Rattle.std.specs.Prelude.{◌≡◌, ◌*◌, ◌≤◌, T, length};
ghost use Rattle.model.specs.Basic.{sort};
ghost use Rattle.model.specs.Sizes.{max_succs, row_words, op_words, succ_words, room_words};
ghost use Rattle.model.specs.Document.{all_succs, succ_before};
ghost use Rattle.model.specs.Answer.{is_accepted};
ghost use Rattle.model.specs.Refusal.{batch_refusal};
ghost use Rattle.model.specs.WellFormed.{well_formed};
ghost use Rattle.model.specs.Calls.{document_in, batch_in, over};

use crate::merge_entries::merge_entries;
use crate::write_entries::write_entries;
use ids::table::{Ops, Rows};

// Those of k operations, among the m of a document of n rows; the entries are made in the working room.
pub(crate) fn write_succs(
    rows: &[u64],
    n: usize,
    succs: &mut [u64],
    m: usize,
    ops: &[u64],
    k: usize,
    room: &mut [u64],
)
    requires { (n * row_words ≤ length rows.now) × (k * op_words ≤ length ops.now) × (length succs.old ≡ max_succs * succ_words) × (length room.old ≡ room_words) × T (well_formed (document_in n rows.now m succs.old)) × T (is_accepted (batch_refusal (document_in n rows.now m succs.old) (batch_in k ops.now))) }
    ensures { succs.new ≡ over succs.old (sort succ_before (all_succs (document_in n rows.now m succs.old) (batch_in k ops.now))) }
{
    let t = write_entries(&Rows::new(rows, n), &Ops::new(ops, k), room);
    merge_entries(succs, m, room, t);
}
