// New successor entries merged into the document's table of them: a lent slice that is shifted by index, with its entries in use (01).
ghost use Rattle.std.specs.Prelude.{◌≡◌, ◌*◌, ◌+◌, ◌≤◌, length, drop};
ghost use Rattle.model.specs.Basic.{pieces};
ghost use Rattle.model.specs.Sizes.{succ_words};
ghost use Rattle.model.specs.Document.{succ_before};
ghost use Rattle.batch.specs.Merge.{merge, Known};
ghost use Rattle.batch.specs.Places.{picked};

use crate::find_places::find_places;
use crate::place::place;
use ids::sizes::SUCC_WORDS;

// An entry's first words, its row's id and the successor's, put it in its place.
const SUCC_KEY: usize = 2;

// Entries `order` of `new`, sorted, among the m of succs; `places` is room for a number each.
pub(crate) fn merge_succs(
    succs: &mut [u64],
    m: usize,
    new: &[u64],
    order: &[u64],
    places: &mut [u64],
)
    requires { ((m + length order.now) * succ_words ≤ length succs.old) × (length order.now ≤ length places.old) × Known succ_words new.now order.now }
    ensures { (pieces succ_words (m + length order.now) succs.new ≡ merge succ_before (pieces succ_words m succs.old) (picked succ_words succ_words new.now order.now)) × (drop ((m + length order.now) * succ_words) succs.new ≡ drop ((m + length order.now) * succ_words) succs.old) }
{
    let k = order.len();
    find_places(succs, m, new, order, places, SUCC_WORDS, SUCC_KEY);
    place(succs, SUCC_WORDS, m, new, SUCC_WORDS, order, &places[..k]);
}
