// What a clock shows of a row: whether it is visible, and a counter's total.
#![tactic(auto)]

pub mod entries;
pub mod scope;
pub mod sum;

ghost use Rattle.std.specs.Prelude.{◌≡◌};
ghost use Rattle.visible.specs.Scope.{scope, owned, seen_in};
ghost use Rattle.visible.specs.Scoped.{scoped};

use entries::{end_of, first_of};
use ids::piece::Row;
use ids::table::Succs;
use sum::Outgrown;

// The row's entries.
#[tactic(auto, unfolding(crate::specs::Scope::owned))]
fn entries_of<'a>(row: &Row<'_>, succs: &Succs<'a>) -> Succs<'a>
    ensures { result ≡ owned succs.now row.now }
{
    let id = row.id();
    let from = first_of(succs, id);
    succs.part(from, end_of(succs, from, id))
}

// Is the row visible, by this table of successors?
#[tactic(auto, unfolding(crate::specs::Scope::seen_in))]
pub fn is_visible(row: &Row<'_>, succs: &Succs<'_>, clock: &[u64]) -> bool
    ensures { result ≡ seen_in clock.now succs.now row.now }
{
    let own = entries_of(row, succs);
    scope::visible_among(row, &own, clock)
}

// What the row shows: nothing, or its value with what its increments add, or that this does not fit.
pub fn scope_to_clock(
    row: &Row<'_>,
    succs: &Succs<'_>,
    clock: &[u64],
) -> Result<Option<u64>, Outgrown>
    ensures { result ≡ scoped clock.now (scope (owned succs.now row.now)) row.now }
{
    let own = entries_of(row, succs);
    scope::scoped_among(row, &own, clock)
}
