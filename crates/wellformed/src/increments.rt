// The rules of Increments and of what they carry.
ghost use Rattle.std.specs.Prelude.{◌≡◌, []};
ghost use Rattle.model.specs.WellFormed.{increments_stand, carries_right, increments_right};
ghost use Rattle.wellformed.specs.Document.{document_of};
ghost use Rattle.wellformed.specs.Rules.{increment_stands, raises, carries_value};

use crate::passed::Passed;
use crate::succs_alone::has_succ;
use ids::kinds::Action;
use ids::piece::{Row, Succ};
use ids::table::Succs;

#[tactic(auto, using(crate::proofs::Entries::increment_parts))]
fn increment_stands(row: &Row<'_>, succs: &Succs<'_>) -> bool
    ensures { result ≡ increment_stands succs.now row.now }
{
    !row.does(Action::Increment) || has_succ(succs, row.id())
}

// Every Increment row is a successor of some row.
pub(crate) fn increments_stand(rows: &Passed<'_>, succs: &Succs<'_>) -> bool
    ensures { result ≡ increments_stand (document_of rows.now succs.now) }
{
    rows.rows.iter().all(|row| increment_stands(&row, succs))
}

// Is it a counter's Increment successor?
#[tactic(auto, unfolding(crate::specs::Rules::raises))]
fn raises(rows: &Passed<'_>, entry: &Succ<'_>) -> bool
    ensures { result ≡ raises rows.now entry.now }
{
    rows.find(entry.owner()).is_some_and(|row| row.is_counter())
        && rows
            .find(entry.id())
            .is_some_and(|row| row.does(Action::Increment))
}

// The entry carries the number of the row that its successor has.
#[tactic(auto, unfolding(crate::specs::Rules::carries_value))]
fn carries_value(rows: &Passed<'_>, entry: &Succ<'_>) -> bool
    ensures { result ≡ carries_value rows.now entry.now }
{
    let number = entry.carried();
    rows.find(entry.id())
        .is_some_and(|row| row.value() == number)
}

#[tactic(auto, using(crate::proofs::Entries::carries_parts))]
fn carries_right(rows: &Passed<'_>, entry: &Succ<'_>) -> bool
    ensures { result ≡ carries_right (document_of rows.now []) entry.now }
{
    if raises(rows, entry) {
        entry.carries() && carries_value(rows, entry)
    } else {
        entry.flag() == 0 && entry.carried() == 0
    }
}

// The increment is present exactly for a counter's Increment successor, with its number; where absent its field is zero.
pub(crate) fn increments_right(rows: &Passed<'_>, succs: &Succs<'_>) -> bool
    ensures { result ≡ increments_right (document_of rows.now succs.now) }
{
    succs.iter().all(|entry| carries_right(rows, &entry))
}
