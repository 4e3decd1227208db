// Each row passes checks 4, 6 and 7 against the rows.
ghost use Rattle.std.specs.Prelude.{◌≡◌, []};
ghost use Rattle.model.specs.Refusal.{object_fits, element_fits};
ghost use Rattle.model.specs.WellFormed.{rows_pass};
ghost use Rattle.wellformed.specs.Document.{document_of};
ghost use Rattle.wellformed.specs.Rules.{passes};

use crate::passed::Apart;
use checks::fits::row_fits;
use checks::refers::{element_fits, object_fits};
use ids::piece::Row;

#[tactic(auto, using(checks::proofs::Parts::object_parts))]
fn has_object(rows: &Apart<'_>, row: &Row<'_>) -> bool
    ensures { result ≡ object_fits rows.now row.now }
{
    object_fits(row, rows.find(row.object()))
}

#[tactic(auto, using(checks::proofs::Parts::element_parts))]
fn has_element(rows: &Apart<'_>, row: &Row<'_>) -> bool
    ensures { result ≡ element_fits rows.now row.now }
{
    element_fits(row, rows.find(row.named()))
}

#[tactic(auto, unfolding(crate::specs::Rules::passes))]
fn row_passes(rows: &Apart<'_>, row: &Row<'_>) -> bool
    ensures { result ≡ passes rows.now row.now }
{
    row_fits(row) && has_object(rows, row) && has_element(rows, row)
}

pub(crate) fn rows_pass(rows: &Apart<'_>) -> bool
    ensures { result ≡ rows_pass (document_of rows.now []) }
{
    rows.rows.iter().all(|row| row_passes(rows, &row))
}
