// The checks of a batch, 3 to 9: the smallest number over the whole batch, then the first operation with it.
ghost use Rattle.std.specs.Prelude.{◌≡◌, []};
ghost use Rattle.ids.specs.Refusals.{answer_by};
ghost use Rattle.refusal.specs.Checks.{check_number};
ghost use Rattle.refusal.specs.CheckedBatch.{answer_of, limited, ops_refusal, first_refusal, checked, Countable};

use crate::check::Check;
use crate::counts::{new_rows, new_succs};
use crate::guesses::Guesses;
use crate::lent::lent_fits;
use crate::named::Known;
use ids::refusal::{Reason, Refusal};
use ids::sizes::{MAX_BATCH, MAX_ROWS, MAX_SUCCS};
use ids::table::Table;

// How many rows and successors there will be.
#[derive(Clone, Copy, PartialEq, Eq)]
pub struct Counts {
    pub rows: usize,
    pub succs: usize,
}

#[tactic(auto, unfolding(crate::specs::CheckedBatch::limited, model::specs::Sizes::max_rows, model::specs::Sizes::max_succs))]
fn limited(rows: usize, succs: usize) -> Result<Counts, Refusal>
    ensures { answer_of result ≡ limited rows succs }
{
    if MAX_ROWS < rows || MAX_SUCCS < succs {
        return Err(Reason::Full.into());
    }
    Ok(Counts { rows, succs })
}

// The first operation that fails a check is refused for it.
fn refuse(check: Check, known: &Known<'_>) -> Result<(), Refusal>
    ensures { answer_by (λ u. []) result ≡ ops_refusal known.now.rows known.now.succs known.now.ops (check_number check) }
{
    if let Some(place) = known.first_refused(check) {
        return Err(Refusal {
            reason: check.into(),
            place,
        });
    }
    Ok(())
}

// 4 to 9: a check is made only where all operations passed the ones before it.
#[tactic(auto, unfolding(crate::specs::CheckedBatch::first_refusal))]
fn first_refusal(known: &Known<'_>) -> Result<Counts, Refusal>
    requires { Countable known.now.rows known.now.succs known.now.ops }
    ensures { answer_of result ≡ first_refusal known.now.rows known.now.succs known.now.ops }
{
    refuse(Check::Form, known)?;
    refuse(Check::Id, known)?;
    refuse(Check::Object, known)?;
    refuse(Check::Element, known)?;
    refuse(Check::Predecessors, known)?;
    limited(
        known.rows.len() + new_rows(&known.ops),
        known.succs.len() + new_succs(&known.ops),
    )
}

// Slices and claims: it promises to test them itself (docs/CONTRACTS.md).
#[tactic(auto, unfolding(crate::specs::CheckedBatch::checked, model::specs::Sizes::max_batch))]
pub fn check_batch(
    rows: &[u64],
    n: usize,
    succs: &[u64],
    m: usize,
    ops: &[u64],
    k: usize,
) -> Result<Counts, Refusal>
    ensures { answer_of result ≡ checked n rows.now m succs.now k ops.now }
{
    if !lent_fits(rows, n, succs, m, ops, k) {
        return Err(Reason::Unsized.into());
    }
    if MAX_BATCH < k {
        return Err(Reason::LongBatch.into());
    }
    let rows = Table::new(rows, n);
    let mut guesses = Guesses::none();
    guesses.note(&rows);
    first_refusal(&Known {
        rows,
        succs: Table::new(succs, m),
        ops: Table::new(ops, k),
        guesses: &guesses,
    })
}
