// The rules that look at rows one by one, or for their ids alone.
ghost use Rattle.std.specs.Prelude.{◌≡◌, []};
ghost use Rattle.model.specs.Basic.{any};
ghost use Rattle.model.specs.WellFormed.{no_delete, ids_differ};
ghost use Rattle.checks.specs.Find.{has_id};
ghost use Rattle.wellformed.specs.Document.{document_of};

use ids::kinds::Action;
use ids::table::Rows;

// No row is a Delete.
pub(crate) fn no_delete(rows: &Rows<'_>) -> bool
    ensures { result ≡ no_delete (document_of rows.now []) }
{
    rows.iter().all(|row| !row.does(Action::Delete))
}

// Has a row this id?
pub(crate) fn has_id(rows: &Rows<'_>, id: u64) -> bool
    ensures { result ≡ any (has_id id) rows.now }
{
    rows.iter().any(|row| row.id() == id)
}

// Row ids differ: each from those behind it.
pub(crate) fn ids_differ(rows: &Rows<'_>) -> bool
    ensures { result ≡ ids_differ (document_of rows.now []) }
{
    let mut rest = rows.iter();
    while let Some(row) = rest.next() {
        if has_id(&rest, row.id()) {
            return false;
        }
    }
    true
}
