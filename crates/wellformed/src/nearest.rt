// The second pass over the rows' order: each insert refers to the nearest smaller element of its list to its left, or to HEAD.
// Those elements are a stack: an array and a depth in the working room, a rule of document 01 where there is no heap.
ghost use Rattle.std.specs.Prelude.{◌≡◌, [], ◌≤◌, length};
ghost use Rattle.laws.proofs.Nearest.{top};
ghost use Rattle.laws.proofs.Passes.{nearest_from};
ghost use Rattle.wellformed.specs.Stack.{stack_of, Popped, StandsAt};

use ids::op_id::OpId;
use ids::piece::Row;
use ids::table::Rows;

// The depth that is left when all that is larger is popped.
fn popped(room: &[u64], depth: usize, id: u64) -> usize
    requires { depth ≤ length room.now }
    ensures { Popped id room.now depth result }
{
    let mut k = depth;
    while 0 < k && id < room[k - 1] {
        k -= 1;
    }
    k
}

// The top of the stack; HEAD where it is empty.
fn top(room: &[u64], depth: usize) -> u64
    requires { depth ≤ length room.now }
    ensures { result ≡ top (stack_of room.now depth) }
{
    if depth == 0 {
        OpId::HEAD.0
    } else {
        room[depth - 1]
    }
}

// The depth at which the insert is pushed, if it refers to the top that is left then. Another list starts with an empty stack.
fn stands_at(row: &Row<'_>, room: &[u64], last: u64, depth: usize) -> Option<usize>
    requires { depth ≤ length room.now }
    ensures { StandsAt room.now last depth row.now result }
{
    let base = if row.object() == last { depth } else { 0 };
    let k = popped(room, base, row.id());
    if top(room, k) == row.named() {
        Some(k)
    } else {
        None
    }
}

pub(crate) fn nearest(rows: &Rows<'_>, room: &mut [u64]) -> bool
    requires { length rows.now ≤ length room.old }
    ensures { result ≡ nearest_from 0 [] rows.now }
{
    let mut last = 0;
    let mut depth = 0;
    for row in rows.iter() {
        if row.is_insert() {
            let Some(k) = stands_at(&row, room, last, depth) else {
                return false;
            };
            room[k] = row.id();
            last = row.object();
            depth = k + 1;
        }
    }
    true
}
