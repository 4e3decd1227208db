// The first operation that fails a check.
ghost use Rattle.std.specs.Prelude.{◌≡◌, [], get_or, take};
ghost use Rattle.refusal.specs.Checks.{check_number};
ghost use Rattle.refusal.specs.Failing.{malformed, fails, refused_at};
ghost use Rattle.refusal.specs.CheckedBatch.{ops_refusal};

use crate::check::Check;
use crate::known::unknown;
use crate::named::Known;
use crate::preds::preds_fit;
use crate::taken::id_taken;
use checks::fits::row_fits;
use ids::piece::Op;
use ids::table::Table;

#[tactic(auto, unfolding(crate::specs::Failing::malformed), using(crate::proofs::OpWords::row_fits_same))]
fn malformed(op: &Op<'_>) -> bool
    ensures { result ≡ malformed op.now }
{
    !(row_fits(&op.row()) && preds_fit(op))
}

impl<'a> Known<'a> {
    // Does operation j fail the check?
    #[tactic(auto, unfolding(crate::specs::Failing::fails))]
    fn fails(&self, check: Check, j: usize) -> bool
        ensures { result ≡ fails (check_number check) self.now.rows self.now.succs self.now.ops (take j self.now.ops) (get_or self.now.ops j []) }
    {
        let op = self.ops.get(j);
        match check {
            Check::Form => malformed(&op),
            Check::Id => id_taken(&self.rows, &self.succs, &self.ops.part(0, j), op.row().id()),
            Check::Object => !self.object_right(&op.row()),
            Check::Element => !self.element_right(&op.row()),
            Check::Predecessors => !self.preds_right(&op),
        }
    }

    // The first operation that does.
    fn first_failing(&self, check: Check) -> Option<usize>
        ensures { refused_at (check_number check) result ≡ ops_refusal self.now.rows self.now.succs self.now.ops (check_number check) }
    {
        (0..self.ops.len()).find(|&j| self.fails(check, j))
    }

    // The same: check 5 looks at the document only where that knows an id of the batch.
    pub(crate) fn first_refused(&self, check: Check) -> Option<usize>
        ensures { refused_at (check_number check) result ≡ ops_refusal self.now.rows self.now.succs self.now.ops (check_number check) }
    {
        if check == Check::Id && unknown(&self.rows, &self.succs, &self.ops) {
            let alone = Known {
                rows: Table::new(&[], 0),
                succs: Table::new(&[], 0),
                ops: self.ops.iter(),
                guesses: self.guesses,
            };
            return alone.first_failing(check);
        }
        self.first_failing(check)
    }
}
