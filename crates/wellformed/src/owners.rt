// The rules of a successor entry against the row that it belongs to and the row that its successor has.
ghost use Rattle.std.specs.Prelude.{◌≡◌};
ghost use Rattle.model.specs.Basic.{all};
ghost use Rattle.model.specs.Row.{rows_with};
ghost use Rattle.model.specs.WellFormed.{owners_stand, succ_rows_fit};
ghost use Rattle.wellformed.specs.Document.{document_of};
ghost use Rattle.wellformed.specs.Rules.{owner_stands, no_insert, one_key_of, succ_row_fits};

use crate::passed::Passed;
use ids::piece::Succ;
use ids::table::Succs;

#[tactic(auto, unfolding(crate::specs::Rules::owner_stands))]
fn owner_stands(rows: &Passed<'_>, entry: &Succ<'_>) -> bool
    ensures { result ≡ owner_stands rows.now entry.now }
{
    rows.find(entry.owner())
        .is_some_and(|row| row.is_set_or_make())
}

// Increment rows have no successors: those that have some are Set or Make rows.
pub(crate) fn owners_stand(rows: &Passed<'_>, succs: &Succs<'_>) -> bool
    ensures { result ≡ owners_stand (document_of rows.now succs.now) }
{
    succs.iter().all(|entry| owner_stands(rows, &entry))
}

// Is the row with this id, if there is one, no insert?
fn no_insert(rows: &Passed<'_>, id: u64) -> bool
    ensures { result ≡ all no_insert (rows_with rows.now id) }
{
    rows.find(id).is_none_or(|row| !row.is_insert())
}

// Are the rows with these ids, if there are two, of one object and key?
pub(crate) fn one_key(rows: &Passed<'_>, id: u64, other: u64) -> bool
    ensures { result ≡ one_key_of rows.now id other }
{
    let Some(a) = rows.find(id) else {
        return true;
    };
    let Some(b) = rows.find(other) else {
        return true;
    };
    a.same_key(&b)
}

#[tactic(auto, using(crate::proofs::Entries::succ_row_parts))]
fn succ_row_fits(rows: &Passed<'_>, entry: &Succ<'_>) -> bool
    ensures { result ≡ succ_row_fits rows.now entry.now }
{
    no_insert(rows, entry.id()) && one_key(rows, entry.id(), entry.owner())
}

// A successor that has a row is a non-insert row of the same object and key.
pub(crate) fn succ_rows_fit(rows: &Passed<'_>, succs: &Succs<'_>) -> bool
    ensures { result ≡ succ_rows_fit (document_of rows.now succs.now) }
{
    succs.iter().all(|entry| succ_row_fits(rows, &entry))
}
