// The row of a batch's operation, by its number.
ghost use Rattle.std.specs.Prelude.{◌≡◌, ◌*◌};
ghost use Rattle.model.specs.Sizes.{row_words, op_words};
ghost use Rattle.batch.specs.Parts.{part};

use ids::piece::{Op, Row};

#[tactic(auto, using(crate::proofs::Copies::row_part))]
pub(crate) fn op_row<'a>(ops: &'a [u64], x: u64) -> Row<'a>
    ensures { result ≡ part row_words ops.now (x * op_words) }
{
    Op::nth(ops, x as usize).row()
}
