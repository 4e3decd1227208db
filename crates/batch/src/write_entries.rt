// The successor entries of a whole batch.
ghost use Rattle.std.specs.Prelude.{◌≡◌, ◌*◌, ◌≤◌, length, drop};
ghost use Rattle.model.specs.Basic.{pieces};
ghost use Rattle.model.specs.Sizes.{succ_words};
ghost use Rattle.batch.specs.Entries.{counter_among, new_entries};

use crate::op_entries::op_entries;
use ids::table::{Ops, Rows};

// The entries of a batch on a document's rows, at the start of out, and how many they are.
pub(crate) fn write_entries(rows: &Rows<'_>, ops: &Ops<'_>, out: &mut [u64]) -> usize
    requires { length (new_entries (counter_among rows.now ops.now) ops.now) * succ_words ≤ length out.old }
    ensures { (result ≡ length (new_entries (counter_among rows.now ops.now) ops.now)) × (pieces succ_words result out.new ≡ new_entries (counter_among rows.now ops.now) ops.now) × (drop (result * succ_words) out.new ≡ drop (result * succ_words) out.old) }
{
    let mut t = 0;
    for i in 0..ops.len() {
        t = op_entries(rows, ops, &ops.get(i), out, t);
    }
    t
}
