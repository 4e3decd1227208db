// What a batch adds: a row for each operation that is no Delete, a successor for each predecessor.
ghost use Rattle.std.specs.Prelude.{◌≡◌, ◌^◌, ◌<◌};
ghost use Rattle.refusal.specs.OpAt.{readable};
ghost use Rattle.refusal.specs.Failing.{adds, sum_of};

use ids::kinds::Action;
use ids::table::Ops;

pub(crate) fn new_rows(ops: &Ops<'_>) -> usize
    ensures { result ≡ sum_of adds ops.now }
{
    ops.iter()
        .filter(|op| !op.row().does(Action::Delete))
        .count()
}

pub(crate) fn new_succs(ops: &Ops<'_>) -> usize
    requires { sum_of readable ops.now < 2 ^ 64 }
    ensures { result ≡ sum_of readable ops.now }
{
    ops.iter().map(|op| op.preds().len()).sum()
}
