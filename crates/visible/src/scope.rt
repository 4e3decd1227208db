// Which rows are visible, and what they show, by these entries.
ghost use Rattle.std.specs.Prelude.{◌≡◌};
ghost use Rattle.model.specs.Basic.{any};
ghost use Rattle.model.specs.Visible.{visible};
ghost use Rattle.visible.specs.Scope.{scope, covers, overwrites};
ghost use Rattle.visible.specs.Scoped.{scoped};

use crate::sum;
use crate::sum::Outgrown;
use ids::op_id::OpId;
use ids::piece::{Row, Succ};
use ids::table::Succs;

// Is the entry a covered successor of the row with this id?
#[tactic(auto, unfolding(crate::specs::Scope::covers))]
pub fn covers(entry: &Succ<'_>, id: u64, clock: &[u64]) -> bool
    ensures { result ≡ covers clock.now id entry.now }
{
    entry.owner() == id && OpId(entry.id()).covered(clock)
}

// Does the entry, covered and with no increment, hide the row?
#[tactic(auto, unfolding(crate::specs::Scope::overwrites))]
fn overwrites(entry: &Succ<'_>, id: u64, clock: &[u64]) -> bool
    ensures { result ≡ overwrites clock.now id entry.now }
{
    covers(entry, id, clock) && !entry.carries()
}

fn overwritten(succs: &Succs<'_>, id: u64, clock: &[u64]) -> bool
    ensures { result ≡ any (overwrites clock.now id) succs.now }
{
    succs.iter().any(|entry| overwrites(&entry, id, clock))
}

#[tactic(auto, using(crate::proofs::Scopes::visible_is))]
pub fn visible_among(row: &Row<'_>, succs: &Succs<'_>, clock: &[u64]) -> bool
    ensures { result ≡ visible clock.now (scope succs.now) row.now }
{
    let id = row.id();
    if !OpId(id).covered(clock) {
        return false;
    }
    row.is_set_or_make() && !overwritten(succs, id, clock)
}

// What a row shows: nothing, or its value, or that its total does not fit.
#[tactic(auto, unfolding(crate::specs::Scoped::scoped, model::specs::Picture::outgrown, model::specs::Picture::shown_value, crate::specs::Sum::totalled))]
pub fn scoped_among(
    row: &Row<'_>,
    succs: &Succs<'_>,
    clock: &[u64],
) -> Result<Option<u64>, Outgrown>
    ensures { result ≡ scoped clock.now (scope succs.now) row.now }
{
    if !visible_among(row, succs, clock) {
        return Ok(None);
    }
    if !row.is_counter() {
        return Ok(Some(row.value()));
    }
    Ok(Some(sum::counter_total(row, succs, clock)?))
}
