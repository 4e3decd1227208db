// Check 4 of an operation's predecessors.
ghost use Rattle.std.specs.Prelude.{◌≡◌, ltb, drop};
ghost use Rattle.model.specs.Basic.{all, ascends, zeros};
ghost use Rattle.model.specs.Id.{is_id};
ghost use Rattle.model.specs.Row.{pred_count_of, pred_room_of};
ghost use Rattle.model.specs.Malformed.{preds_fit};
ghost use Rattle.refusal.specs.OpAt.{count_fits};

use checks::fits::is_id;
use ids::kinds::Action;
use ids::piece::Op;
use ids::sizes::MAX_PREDS;

// Are the slots past their count zero?
fn zero_past(op: &Op<'_>) -> bool
    ensures { result ≡ zeros (drop (pred_count_of op.now) (pred_room_of op.now)) }
{
    let used = op.pred_count() as usize;
    op.pred_room().iter().skip(used).all(|&slot| slot == 0)
}

fn are_ids(preds: &[u64]) -> bool
    ensures { result ≡ all is_id preds.now }
{
    preds.iter().all(|&pred| is_id(pred))
}

fn ascend(preds: &[u64]) -> bool
    ensures { result ≡ ascends ltb preds.now }
{
    preds.is_sorted_by(|a, b| a < b)
}

// An insert has none; a Delete or an Increment has some.
#[tactic(auto, unfolding(crate::specs::OpAt::count_fits), using(crate::proofs::OpWords::insert_same, crate::proofs::OpWords::action_same))]
fn count_fits(op: &Op<'_>) -> bool
    ensures { result ≡ count_fits op.now }
{
    let row = op.row();
    if op.pred_count() == 0 {
        !row.does(Action::Delete) && !row.does(Action::Increment)
    } else {
        !row.is_insert()
    }
}

#[tactic(auto, unfolding(model::specs::Malformed::preds_fit, crate::specs::OpAt::count_fits))]
pub(crate) fn preds_fit(op: &Op<'_>) -> bool
    ensures { result ≡ preds_fit op.now }
{
    op.pred_count() <= MAX_PREDS as u64
        && zero_past(op)
        && are_ids(op.preds())
        && ascend(op.preds())
        && count_fits(op)
}
