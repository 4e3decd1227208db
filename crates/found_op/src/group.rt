// Groups of rows with one key (003): where one ends, and what is visible in it.
ghost use Rattle.std.specs.Prelude.{◌≡◌};
ghost use Rattle.model.specs.Basic.{filter};
ghost use Rattle.visible.specs.Scope.{seen_in};
ghost use Rattle.found_op.specs.Group.{group_length, found_in};

use ids::table::{Rows, Succs};
use visible::is_visible;

// How many rows of a group are visible, and the id of the last.
#[derive(Clone, Copy)]
pub struct Found {
    pub count: usize,
    pub winner: u64,
}

// How many rows at the start have the first one's key.
pub(crate) fn group_length(rows: &Rows<'_>) -> usize
    ensures { result ≡ group_length rows.now }
{
    let first = rows.get(0);
    let other = rows.iter().position(|row| !first.same_key(&row));
    other.unwrap_or(rows.len())
}

// What is visible of a group.
#[tactic(auto, using(crate::proofs::Counts::counting_more, crate::proofs::Counts::counting_same, crate::proofs::Counts::counting_end))]
pub(crate) fn found_in(group: &Rows<'_>, succs: &Succs<'_>, clock: &[u64]) -> Found
    ensures { result ≡ found_in (filter (seen_in clock.now succs.now) group.now) }
{
    let mut found = Found {
        count: 0,
        winner: 0,
    };
    for row in group.iter() {
        if is_visible(&row, succs, clock) {
            found = Found {
                count: found.count + 1,
                winner: row.id(),
            };
        }
    }
    found
}
