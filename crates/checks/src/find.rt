// Finding a row by its id: one search, behind which a faster one may stand one day.
ghost use Rattle.std.specs.Prelude.{◌≡◌};
ghost use Rattle.model.specs.Basic.{pieces};
ghost use Rattle.model.specs.Sizes.{row_words};
ghost use Rattle.checks.specs.Find.{first_row, placed, found};

use ids::piece::Row;
use ids::row::place;
use ids::table::Rows;

// The index of the first row with this id.
#[tactic(auto, unfolding(crate::specs::Find::first_row))]
pub fn find_row(rows: &Rows<'_>, id: u64) -> Option<usize>
    ensures { result ≡ first_row rows.now id }
{
    rows.iter().position(|row| row.id() == id)
}

// The first row with this id.
pub fn find<'a>(rows: &Rows<'a>, id: u64) -> Option<Row<'a>>
    ensures { result ≡ found rows.now id }
{
    let i = find_row(rows, id)?;
    Some(rows.get(i))
}

// Where the first row with this id starts.
pub fn find_place(rows: &[u64], n: usize, id: u64) -> Option<usize>
    ensures { result ≡ placed rows.now (first_row (pieces row_words n rows.now) id) }
{
    let i = find_row(&Rows::new(rows, n), id)?;
    Some(place(rows, i))
}
