// The rule of successors that have no row: those of Deletes.
ghost use Rattle.std.specs.Prelude.{◌≡◌, []};
ghost use Rattle.model.specs.Basic.{all};
ghost use Rattle.model.specs.WellFormed.{one_key, deletes_fit};
ghost use Rattle.wellformed.specs.Document.{document_of};
ghost use Rattle.wellformed.specs.Rules.{delete_fits};

use crate::owners::one_key;
use crate::passed::Passed;
use crate::rows_alone::has_id;
use checks::fits::is_id;
use ids::piece::Succ;
use ids::table::Succs;

// Are the entries, if they have one successor, of rows of one object and key?
#[tactic(auto, using(crate::proofs::Entries::key_parts))]
fn agree(rows: &Passed<'_>, a: &Succ<'_>, b: &Succ<'_>) -> bool
    ensures { result ≡ one_key (document_of rows.now []) a.now b.now }
{
    a.id() != b.id() || one_key(rows, a.owner(), b.owner())
}

fn all_agree(rows: &Passed<'_>, succs: &Succs<'_>, entry: &Succ<'_>) -> bool
    ensures { result ≡ all (one_key (document_of rows.now []) entry.now) succs.now }
{
    succs.iter().all(|other| agree(rows, entry, &other))
}

#[tactic(auto, using(crate::proofs::Entries::delete_parts))]
fn delete_fits(rows: &Passed<'_>, succs: &Succs<'_>, entry: &Succ<'_>) -> bool
    ensures { result ≡ delete_fits (document_of rows.now succs.now) entry.now }
{
    has_id(&rows.rows, entry.id()) || is_id(entry.id()) && all_agree(rows, succs, entry)
}

// A successor that has no row has an id in range and stands only in rows of one object and key.
pub(crate) fn deletes_fit(rows: &Passed<'_>, succs: &Succs<'_>) -> bool
    ensures { result ≡ deletes_fit (document_of rows.now succs.now) }
{
    succs.iter().all(|entry| delete_fits(rows, succs, &entry))
}
