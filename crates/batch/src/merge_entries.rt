// New successor entries in any order, sorted and merged into the document's table: a lent slice that is shifted by index, with its entries in use (01).
ghost use Rattle.std.specs.Prelude.{◌≤◌, length};
ghost use Rattle.batch.specs.Entries.{max_entries};
ghost use Rattle.batch.specs.MergedEntries.{EntriesFit, EntriesMerged};

use crate::merge_succs::merge_succs;
use crate::order_succs::order_succs;
use crate::zeros::zeros;
use ids::sizes::{MAX_BATCH, MAX_PREDS};

// max_entries
const MAX_ENTRIES: usize = MAX_BATCH * MAX_PREDS;

// Entries of new, one for each number that order and spare have room for.
fn merge_by(succs: &mut [u64], m: usize, new: &[u64], order: &mut [u64], spare: &mut [u64])
    requires { EntriesFit m (length order.old) new.now succs.old × (length order.old ≤ length spare.old) }
    ensures { EntriesMerged m (length order.old) new.now succs.old succs.new }
{
    order_succs(new, order, spare);
    merge_succs(succs, m, new, order, spare);
}

// The t entries of new, among the m of succs.
#[tactic(auto, unfolding(model::specs::Sizes::max_batch))]
pub(crate) fn merge_entries(succs: &mut [u64], m: usize, new: &[u64], t: usize)
    requires { EntriesFit m t new.now succs.old × (t ≤ max_entries) }
    ensures { EntriesMerged m t new.now succs.old succs.new }
{
    let mut order = zeros::<MAX_ENTRIES>();
    let mut spare = zeros::<MAX_ENTRIES>();
    merge_by(succs, m, new, &mut order[..t], &mut spare);
}
