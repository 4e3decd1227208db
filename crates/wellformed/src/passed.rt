// Rows that passed earlier rules, and what later rules may take for granted of them.
ghost use Rattle.std.specs.Prelude.{◌≡◌, ℕ, List};
ghost use Rattle.model.specs.Row.{rows_with};
ghost use Rattle.laws.proofs.Members.{All};
ghost use Rattle.checks.proofs.OneKey.{Plain};
ghost use Rattle.checks.specs.Refers.{found_rows};
ghost use Rattle.wellformed.specs.Checked.{Differing, Checked};

use checks::find::find;
use ids::piece::Row;
use ids::table::Rows;
use std::marker::Model;

// Row ids differ, so that at most one row has an id.
#[derive(Drop)]
pub(crate) struct Apart<'a> {
    pub(crate) rows: Rows<'a>,
}

impl<'a> Model for Apart<'a> {
    ghost Value = { List (List ℕ) };

    ghost view = { λ a. a.rows };

    ghost invariant = { λ a. Differing a.rows };
}

impl<'a> Apart<'a> {
    pub(crate) fn find(&self, id: u64) -> Option<Row<'a>>
        ensures { found_rows result ≡ rows_with self.now id }
    {
        find(&self.rows, id)
    }
}

// And rows pass checks 4, 6 and 7, so that keys are compared by words.
#[derive(Drop)]
pub(crate) struct Passed<'a> {
    pub(crate) rows: Rows<'a>,
}

impl<'a> Model for Passed<'a> {
    ghost Value = { List (List ℕ) };

    ghost view = { λ p. p.rows };

    ghost invariant = { λ p. Checked p.rows };
}

impl<'a> Passed<'a> {
    pub(crate) fn find(&self, id: u64) -> Option<Row<'a>>
        ensures same { found_rows result ≡ rows_with self.now id }
        ensures plain { All Plain (found_rows result) }
    {
        find(&self.rows, id)
    }
}
