// Check 5: is an id taken?
ghost use Rattle.std.specs.Prelude.{◌≡◌, ◌||◌};
ghost use Rattle.refusal.specs.TakenIds.{word_in, taken};

use ids::table::{Ops, Rows, Succs};

// Is it the id of an operation?
pub(crate) fn op_has(ops: &Ops<'_>, id: u64) -> bool
    ensures { result ≡ word_in 0 id ops.now }
{
    ops.with_id(id).is_some()
}

// Is it the id of a row, or of a successor?
fn document_has(rows: &Rows<'_>, succs: &Succs<'_>, id: u64) -> bool
    ensures { result ≡ (word_in 0 id rows.now || word_in 1 id succs.now) }
{
    rows.iter().any(|row| id == row.id()) || succs.iter().any(|succ| id == succ.id())
}

// Is it one of these, with the operations before?
#[tactic(auto, unfolding(crate::specs::TakenIds::taken))]
pub(crate) fn id_taken(rows: &Rows<'_>, succs: &Succs<'_>, earlier: &Ops<'_>, id: u64) -> bool
    ensures { result ≡ taken earlier.now rows.now succs.now id }
{
    op_has(earlier, id) || document_has(rows, succs, id)
}
