// Refusal 2: is the document well-formed? Slices and claims come as a call has them.
ghost use Rattle.std.specs.Prelude.{◌≡◌, true};
ghost use Rattle.model.specs.Calls.{document_sized};
ghost use Rattle.wellformed.specs.Document.{fits_claims, back, check_call};

use crate::rules::rules_hold;
use ids::lent::{clear, document_sized, over_limits};
use ids::table::{Rows, Succs};

// Claims are tested as the numbers that they are, before anything is read.
fn fits_claims(
    rows: &[u64],
    succs: &[u64],
    row_count: u64,
    succ_count: u64,
    room: &mut [u64],
) -> bool
    requires { document_sized rows.now succs.now room.old ≡ true }
    ensures { result ≡ fits_claims row_count rows.now succ_count succs.now }
{
    let n = row_count as usize;
    let m = succ_count as usize;
    !over_limits(n, m) && rules_hold(Rows::new(rows, n), &Succs::new(succs, m), room)
}

// False, and the room as it was, where a slice has not its size; otherwise the room is cleared.
#[tactic(auto, unfolding(crate::specs::Document::check_call))]
pub fn check_document(
    rows: &[u64],
    succs: &[u64],
    row_count: u64,
    succ_count: u64,
    room: &mut [u64],
) -> bool
    ensures { back result room.new ≡ check_call row_count rows.now succ_count succs.now room.old }
{
    if !document_sized(rows, succs, room) {
        return false;
    }
    let fits = fits_claims(rows, succs, row_count, succ_count, room);
    clear(room);
    fits
}
