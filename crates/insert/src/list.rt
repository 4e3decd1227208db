// Where the rows of a list lie.
ghost use Rattle.std.specs.Prelude.{◌≡◌, ◌≤◌, length};
ghost use Rattle.model.specs.Basic.{any};
ghost use Rattle.insert.specs.Lists.{makes, ListStart, ListEnd};

use ids::piece::Row;
use ids::table::Rows;

// The place of the list's first row, or where it would stand: behind the rows of all objects before it.
pub(crate) fn first_place(rows: &Rows<'_>, list: u64) -> usize
    ensures { ListStart rows.now list result }
{
    rows.iter()
        .position(|row| list <= row.object())
        .unwrap_or(rows.len())
}

// The end of the list's rows, that start at `first`.
pub(crate) fn list_end(rows: &Rows<'_>, first: usize, list: u64) -> usize
    requires { first ≤ length rows.now }
    ensures { ListEnd rows.now first list result }
{
    let n = rows.len();
    (first..n)
        .find(|i| rows.get(*i).object() != list)
        .unwrap_or(n)
}

// Does the row make this list?
#[tactic(auto, unfolding(crate::specs::Lists::makes))]
fn makes_list(row: &Row<'_>, list: u64) -> bool
    ensures { result ≡ makes list row.now }
{
    row.id() == list && row.is_make_sequence()
}

// Is it a list of the document, whatever became of its Make row?
pub(crate) fn is_list(rows: &Rows<'_>, list: u64) -> bool
    ensures { result ≡ any (makes list) rows.now }
{
    rows.iter().any(|row| makes_list(&row, list))
}
