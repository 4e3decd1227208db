// Checks 6, 7 and 8: the rows that an operation names as its object, its element and its predecessors.
ghost use Rattle.std.specs.Prelude.{◌≡◌, ◌||◌, true};
ghost use Rattle.model.specs.Row.{row_of, preds_of};
ghost use Rattle.refusal.specs.Checks.{check_number};
ghost use Rattle.refusal.specs.Bearing.{makes_for, insert_for, stands_for, bears, bearing, bearer_in, op_bears, refers_well, object_right, element_right, preds_right};

use crate::check::Check;
use crate::guesses::Guesses;
use ids::kinds::Action;
use ids::op_id::OpId;
use ids::piece::{Op, Row};
use ids::table::{Ops, Rows, Succs};

// The document, the batch, and guesses where the document's rows stand.
#[derive(Drop)]
pub(crate) struct Known<'a> {
    pub(crate) rows: Rows<'a>,
    pub(crate) succs: Succs<'a>,
    pub(crate) ops: Ops<'a>,
    pub(crate) guesses: &'a Guesses,
}

// Does the row make what x's key is a key of?
#[tactic(auto, unfolding(crate::specs::Bearing::makes_for))]
fn makes_for(row: &Row<'_>, x: &Row<'_>) -> bool
    ensures { result ≡ makes_for row.now x.now }
{
    if x.on_list() {
        row.does(Action::MakeList)
    } else {
        row.does(Action::MakeMap)
    }
}

#[tactic(auto, unfolding(crate::specs::Bearing::insert_for))]
fn insert_for(row: &Row<'_>, x: &Row<'_>) -> bool
    ensures { result ≡ insert_for row.now x.now }
{
    row.is_insert() && row.object() == x.object()
}

#[tactic(auto, unfolding(crate::specs::Bearing::stands_for))]
fn stands_for(row: &Row<'_>, x: &Row<'_>) -> bool
    ensures { result ≡ stands_for row.now x.now }
{
    row.is_set_or_make() && row.same_key(x)
}

// Is the row what the check asks of one that x names?
#[tactic(auto, unfolding(crate::specs::Bearing::bears))]
fn bears(check: Check, row: &Row<'_>, x: &Row<'_>) -> bool
    ensures { result ≡ bears (check_number check) row.now x.now }
{
    match check {
        Check::Object => makes_for(row, x),
        Check::Element => insert_for(row, x),
        _ => stands_for(row, x),
    }
}

// Has the row this id, and is it that?
#[tactic(auto, unfolding(crate::specs::Bearing::bearing))]
fn bearing(check: Check, row: &Row<'_>, id: u64, x: &Row<'_>) -> bool
    ensures { result ≡ bearing (check_number check) x.now id row.now }
{
    row.id() == id && bears(check, row, x)
}

// How many guesses are looked at.
const GUESSES: usize = 8;

impl<'a> Known<'a> {
    // Is a row that is guessed that? Where none is, another may be.
    #[tactic(auto, using(crate::proofs::Bearers::bearer_at))]
    fn bearer_guessed(&self, check: Check, id: u64, x: &Row<'_>) -> bool
        ensures { (result ≡ true) → true ≡ bearer_in (check_number check) x.now id self.now.rows }
    {
        let mut i = self.guesses.first(id);
        for _ in 0..GUESSES {
            if self.rows.len() <= i {
                return false;
            }
            if bearing(check, &self.rows.get(i), id, x) {
                return true;
            }
            i = self.guesses.next(i);
        }
        false
    }

    // Does some operation bear what the check asks? The first with the id is looked at by itself; where that one does not,
    // all are, and where there is none, none does.
    fn borne_by_op(&self, check: Check, id: u64, x: &Row<'_>) -> bool
        ensures { result ≡ op_bears (check_number check) x.now id self.now.ops }
    {
        let Some(op) = self.ops.with_id(id) else {
            return false;
        };
        bears(check, &op.row(), x) || self.ops.iter().any(|op| bearing(check, &op.row(), id, x))
    }

    // Does some row of document or batch bear what the check asks?
    fn borne(&self, check: Check, id: u64, x: &Row<'_>) -> bool
        ensures { result ≡ (bearer_in (check_number check) x.now id self.now.rows || op_bears (check_number check) x.now id self.now.ops) }
    {
        if self.bearer_guessed(check, id, x) {
            return true;
        }
        self.borne_by_op(check, id, x) || self.rows.iter().any(|row| bearing(check, &row, id, x))
    }

    // And is this id smaller than x's?
    #[tactic(auto, unfolding(crate::specs::Bearing::refers_well))]
    fn refers_well(&self, check: Check, id: u64, x: &Row<'_>) -> bool
        ensures { result ≡ refers_well (check_number check) self.now.rows self.now.ops x.now id }
    {
        id < x.id() && self.borne(check, id, x)
    }

    #[tactic(auto, unfolding(crate::specs::Bearing::object_right))]
    pub(crate) fn object_right(&self, x: &Row<'_>) -> bool
        ensures { result ≡ object_right self.now.rows self.now.ops x.now }
    {
        if x.on_list() {
            return self.refers_well(Check::Object, x.object(), x);
        }
        !x.is_insert()
            && (x.object() == OpId::ROOT.0 || self.refers_well(Check::Object, x.object(), x))
    }

    #[tactic(auto, unfolding(crate::specs::Bearing::element_right))]
    pub(crate) fn element_right(&self, x: &Row<'_>) -> bool
        ensures { result ≡ element_right self.now.rows self.now.ops x.now }
    {
        x.named() == OpId::HEAD.0 || self.refers_well(Check::Element, x.named(), x)
    }

    pub(crate) fn preds_right(&self, op: &Op<'_>) -> bool
        ensures { result ≡ preds_right self.now.rows self.now.ops (row_of op.now) (preds_of op.now) }
    {
        let row = op.row();
        op.preds()
            .iter()
            .all(|&pred| self.refers_well(Check::Predecessors, pred, &row))
    }
}
