// Where new pieces go among old ones, both sorted: one walk over both, with two cursors of which each turn moves one.
ghost use Rattle.std.specs.Prelude.{◌≡◌, [], ◌∷◌, ◌++◌, ◌*◌, ◌+◌, ◌≤◌, length, drop};
ghost use Rattle.model.specs.Basic.{pieces};
ghost use Rattle.batch.specs.Parts.{part};
ghost use Rattle.batch.specs.Merge.{left_next, Known};
ghost use Rattle.batch.specs.Places.{picked};
ghost use Rattle.batch.specs.Found.{places_for, first_before};

use crate::sort::lex_before;

// Is there an old piece s of n, and is it before new piece x by their first `key` words?
fn old_next(old: &[u64], n: usize, s: usize, new: &[u64], x: usize, w: usize, key: usize) -> bool
    requires { (n * w ≤ length old.now) × (x * w + w ≤ length new.now) × (key ≤ w) }
    ensures { result ≡ left_next (first_before key) (drop s (pieces w n old.now)) (part w new.now (x * w) ∷ []) }
{
    if n <= s {
        return false;
    }
    lex_before(old, s * w, new, x * w, key)
}

// For each new piece, in this order, how many of the n old ones come before it.
pub(crate) fn find_places(
    old: &[u64],
    n: usize,
    new: &[u64],
    order: &[u64],
    places: &mut [u64],
    w: usize,
    key: usize,
)
    requires { (n * w ≤ length old.now) × (length order.now ≤ length places.old) × (key ≤ w) × Known w new.now order.now }
    ensures { places.new ≡ places_for (first_before key) 0 (pieces w n old.now) (picked w w new.now order.now) ++ drop (length order.now) places.old }
{
    let mut s = 0;
    let mut j = 0;
    while j < order.len() {
        if old_next(old, n, s, new, order[j] as usize, w, key) {
            s += 1;
        } else {
            places[j] = s as u64;
            j += 1;
        }
    }
}
