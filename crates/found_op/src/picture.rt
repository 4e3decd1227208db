// The picture in one pass over the groups: each is looked through for its visible rows, then these are written down.
ghost use Rattle.std.specs.Prelude.{◌≡◌, ◌*◌, ◌+◌, ◌≤◌, length};
ghost use Rattle.model.specs.Sizes.{entry_words};
ghost use Rattle.model.specs.Picture.{picture};
ghost use Rattle.found_op.specs.Group.{row_shown, group_shown};
ghost use Rattle.found_op.specs.Page.{page, writes, shown};
ghost use Rattle.found_op.specs.Showable.{Showable, document};

use crate::entry::entry;
use crate::group::{Found, found_in, group_length};
use ids::piece::Row;
use ids::sizes::ENTRY_WORDS;
use ids::table::{Rows, Succs};
use visible::scope_to_clock;

// The row's entry, where it is visible, in the place of entry number k; and the number of the next. The output is a lent slice that is written by
// index, and k a count of entries, not its length (01).
fn show_row(
    row: &Row<'_>,
    succs: &Succs<'_>,
    clock: &[u64],
    found: Found,
    out: &mut [u64],
    k: usize,
) -> usize
    requires { k * entry_words + entry_words ≤ length out.old }
    ensures { page out.new result ≡ writes (page out.old k) (row_shown clock.now succs.now found row.now) }
{
    let Some(shown) = scope_to_clock(row, succs, clock).transpose() else {
        return k;
    };
    let place = &mut out[k * ENTRY_WORDS..k * ENTRY_WORDS + ENTRY_WORDS];
    place.copy_from_slice(&entry(row, found, shown));
    k + 1
}

// The rows of a group, in the places from entry number k on.
fn show_group(
    group: &Rows<'_>,
    succs: &Succs<'_>,
    clock: &[u64],
    out: &mut [u64],
    k: usize,
) -> usize
    requires { (k + length group.now) * entry_words ≤ length out.old }
    ensures { page out.new result ≡ writes (page out.old k) (group_shown clock.now succs.now group.now) }
{
    let found = found_in(group, succs, clock);
    let mut next = k;
    for row in group.iter() {
        next = show_row(&row, succs, clock, found, out, next);
    }
    next
}

// The picture of a well-formed document, at the start of the output; and how many entries it has.
pub(crate) fn show(rows: &Rows<'_>, succs: &Succs<'_>, clock: &[u64], out: &mut [u64]) -> usize
    requires { Showable rows.now succs.now out.old }
    ensures { page out.new result ≡ shown (picture clock.now (document rows.now succs.now)) out.old }
{
    let mut rest = rows.iter();
    let mut k = 0;
    // A group a turn.
    while rest.len() > 0 {
        let size = group_length(&rest);
        let group = rest.part(0, size);
        k = show_group(&group, succs, clock, out, k);
        rest = rest.part(size, rest.len());
    }
    k
}
