// Where a row's entries stand in the table of successors, which ascends by the id of their row.
ghost use Rattle.std.specs.Prelude.{◌≡◌, ◌+◌, drop, length};
ghost use Rattle.visible.specs.Entries.{narrowed, run};

use ids::table::Succs;

// The first of the entries whose row's id is not below this one. By halving, which is no counting loop.
#[tactic(auto, using(crate::proofs::Searches::halving_right, crate::proofs::Searches::halving_left))]
pub fn first_of(succs: &Succs<'_>, id: u64) -> usize
    ensures { result ≡ narrowed (length succs.now) id succs.now 0 (length succs.now) }
{
    let mut low = 0;
    let mut high = succs.len();
    while low < high {
        let middle = low + (high - low) / 2;
        if succs.get(middle).owner() < id {
            low = middle + 1;
        } else {
            high = middle;
        }
    }
    low
}

// The end of the entries of the row with this id, that start at `from`.
pub fn end_of(succs: &Succs<'_>, from: usize, id: u64) -> usize
    ensures { result ≡ from + run id (drop from succs.now) }
{
    let rest = succs.part(from, succs.len());
    let other = rest.iter().position(|entry| entry.owner() != id);
    from + other.unwrap_or(rest.len())
}
