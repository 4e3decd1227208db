// Do the slices hold what is claimed of them?
ghost use Rattle.std.specs.Prelude.{◌≡◌, ◌*◌, ◌<◌, leb, length};
ghost use Rattle.refusal.specs.LentFits.{lent_fits};

use ids::sizes::{OP_WORDS, ROW_WORDS, SUCC_WORDS};

// Are there as many pieces of a width? A product could wrap, so the slice is divided.
#[tactic(auto, using(crate::proofs::LentHolds::by_division))]
fn holds(words: &[u64], width: usize, count: usize) -> bool
    requires { 0 < width }
    ensures { result ≡ leb (count * width) (length words.now) }
{
    count <= words.len() / width
}

#[tactic(auto, unfolding(crate::specs::LentFits::lent_fits))]
pub(crate) fn lent_fits(
    rows: &[u64],
    n: usize,
    succs: &[u64],
    m: usize,
    ops: &[u64],
    k: usize,
) -> bool
    ensures { result ≡ lent_fits n rows.now m succs.now k ops.now }
{
    holds(rows, ROW_WORDS, n) && holds(succs, SUCC_WORDS, m) && holds(ops, OP_WORDS, k)
}
