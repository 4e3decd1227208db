// The exact total of a counter. Partial sums may leave the range of 64 signed bits; only the total is refused.
// 128 bits hold any sum of as many words as a slice can have.
ghost use Rattle.std.specs.Prelude.{◌≡◌};
ghost use Rattle.model.specs.Visible.{signed, total};
ghost use Rattle.visible.specs.Scope.{scope};
ghost use Rattle.visible.specs.Sum.{totalled};

use crate::scope::covers;
use ids::piece::Row;
use ids::table::Succs;

// A counter's total does not fit in 64 signed bits.
#[derive(Clone, Copy, PartialEq, Eq)]
pub struct Outgrown;

// A word as a signed number.
fn signed(word: u64) -> i128
    ensures { result ≡ signed word }
{
    i128::from(word.cast_signed())
}

#[tactic(auto, using(crate::proofs::Finished::fits_is, crate::proofs::Finished::misfits_is))]
fn finished(sum: i128) -> Result<u64, Outgrown>
    ensures { result ≡ totalled sum }
{
    match i64::try_from(sum) {
        Ok(total) => Ok(total.cast_unsigned()),
        _ => Err(Outgrown),
    }
}

// A counter's value and its covered increments.
pub fn counter_total(row: &Row<'_>, succs: &Succs<'_>, clock: &[u64]) -> Result<u64, Outgrown>
    ensures { result ≡ totalled (total clock.now (scope succs.now) row.now) }
{
    let id = row.id();
    let value = row.value();
    let mut sum = signed(value);
    for entry in succs.iter() {
        if covers(&entry, id, clock) {
            sum += signed(entry.carried());
        }
    }
    finished(sum)
}
