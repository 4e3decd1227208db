// All the rules of a document: of rows, of successors, and the order.
ghost use Rattle.std.specs.Prelude.{◌≡◌, ◌≤◌, [], true, false, length};
ghost use Rattle.std.specs.Option.{MatchOption};
ghost use Rattle.laws.proofs.Members.{All};
ghost use Rattle.ids.proofs.KeyWords.{Whole};
ghost use Rattle.model.specs.WellFormed.{in_order};
ghost use Rattle.wellformed.specs.Checked.{Lent};
ghost use Rattle.wellformed.specs.Document.{document_of, rows_right, succs_right, rules_hold};

use crate::deletes::deletes_fit;
use crate::increments::{increments_right, increments_stand};
use crate::nearest::nearest;
use crate::neighbours::{all_follow, first_begins};
use crate::owners::{owners_stand, succ_rows_fit};
use crate::passed::{Apart, Passed};
use crate::rows_alone::{ids_differ, no_delete};
use crate::rows_pass::rows_pass;
use crate::succs_alone::{succs_ascend, succs_few};
use ids::table::{Rows, Succs};

// The rows again, if they pass the rules of rows.
fn passed<'a>(rows: Rows<'a>) -> Option<Passed<'a>>
    requires { All Whole rows }
    ensures { MatchOption result (rows_right (document_of rows.entry []) ≡ false) (λ p. (p ≡ rows.entry) × (rows_right (document_of rows.entry []) ≡ true)) }
{
    if !no_delete(&rows) || !ids_differ(&rows) {
        return None;
    }
    let apart = Apart { rows };
    if rows_pass(&apart) {
        Some(Passed { rows: apart.rows })
    } else {
        None
    }
}

#[tactic(auto, using(crate::proofs::Whole::succs_parts))]
fn succs_right(rows: &Passed<'_>, succs: &Succs<'_>) -> bool
    ensures { result ≡ succs_right (document_of rows.now succs.now) }
{
    succs_ascend(succs)
        && owners_stand(rows, succs)
        && succ_rows_fit(rows, succs)
        && deletes_fit(rows, succs)
        && succs_few(succs)
        && increments_stand(rows, succs)
        && increments_right(rows, succs)
}

// Rows stand in order.
#[tactic(auto, using(crate::proofs::Whole::in_order_is))]
fn in_order(rows: &Passed<'_>, room: &mut [u64]) -> bool
    requires { length rows.now ≤ length room.old }
    ensures { result ≡ in_order (document_of rows.now []) }
{
    first_begins(&rows.rows) && all_follow(&rows.rows) && nearest(&rows.rows, room)
}

#[tactic(auto, using(crate::proofs::Whole::whole))]
pub(crate) fn rules_hold(rows: Rows<'_>, succs: &Succs<'_>, room: &mut [u64]) -> bool
    requires { Lent rows room.old }
    ensures { result ≡ rules_hold (document_of rows.entry succs.now) }
{
    let Some(rows) = passed(rows) else {
        return false;
    };
    succs_right(&rows, succs) && in_order(&rows, room)
}
