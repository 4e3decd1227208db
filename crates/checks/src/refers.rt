// Checks 6 and 7 of a row, by the row that its object or its element is, found by the caller.
ghost use Rattle.std.specs.Prelude.{◌≡◌};
ghost use Rattle.model.specs.Basic.{any};
ghost use Rattle.ids.specs.Kinds.{action_number};
ghost use Rattle.checks.specs.Refers.{found_rows, makes, makes_object, object_in, insert_on, element_in};

use ids::kinds::Action;
use ids::op_id::OpId;
use ids::piece::Row;

// Was a row found that is older and does this?
#[tactic(auto, unfolding(crate::specs::Refers::makes_object))]
fn makes_object(row: &Row<'_>, made: Option<Row<'_>>, action: Action) -> bool
    ensures { result ≡ makes_object (action_number action) (found_rows made.entry) row.now }
{
    row.object() < row.id() && made.is_some_and(|make| make.does(action))
}

// Check 6, where `made` is the row of the object's id.
#[tactic(auto, unfolding(crate::specs::Refers::object_in))]
pub fn object_fits(row: &Row<'_>, made: Option<Row<'_>>) -> bool
    ensures { result ≡ object_in (found_rows made.entry) row.now }
{
    if row.on_list() {
        makes_object(row, made, Action::MakeList)
    } else {
        !row.is_insert()
            && (row.object() == OpId::ROOT.0 || makes_object(row, made, Action::MakeMap))
    }
}

// Is it an insert row of this object?
#[tactic(auto, unfolding(crate::specs::Refers::insert_on))]
fn inserts(insert: Option<Row<'_>>, object: u64) -> bool
    ensures { result ≡ any (insert_on object) (found_rows insert.entry) }
{
    insert.is_some_and(|element| element.is_insert() && element.object() == object)
}

// Check 7, where `insert` is the row of the named element's id.
#[tactic(auto, unfolding(crate::specs::Refers::element_in))]
pub fn element_fits(row: &Row<'_>, insert: Option<Row<'_>>) -> bool
    ensures { result ≡ element_in (found_rows insert.entry) row.now }
{
    row.named() == OpId::HEAD.0 || row.named() < row.id() && inserts(insert, row.object())
}
