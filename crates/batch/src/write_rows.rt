// The rows of an accepted batch, put among the document's: a lent slice that is shifted by index, with its rows in use (01).
ghost use Rattle.std.specs.Prelude.{◌≡◌, ◌++◌, map, ◌+◌, ◌*◌, ◌≤◌, length, drop};
ghost use Rattle.model.specs.Basic.{pieces};
ghost use Rattle.model.specs.Sizes.{max_batch, op_words};
ghost use Rattle.model.specs.Calls.{over};
ghost use Rattle.laws.proofs.Members.{All, Mem};
ghost use Rattle.laws.proofs.Untangle.{row_in};
ghost use Rattle.laws.proofs.Placing.{news_in, places_in};
ghost use Rattle.batch.specs.Rank.{ordered};
ghost use Rattle.batch.specs.Walk.{doc_from, new_rows_of};
ghost use Rattle.batch.specs.Groups.{doc_out, Grouped, Mergeable};

use crate::group_words::write_objects;
use crate::order_ops::RANK_WORDS;
use crate::order_rows::order_rows;
use crate::place::place;
use crate::walk_doc::{NewRows, walk_doc};
use crate::zeros::zeros;
use ids::sizes::{MAX_BATCH, OP_WORDS, ROW_WORDS};

// A rank of each operation.
const MAX_RANKS: usize = MAX_BATCH * RANK_WORDS;

// The numbers of the operations that leave a row, sorted by rank, to the front of out; how many they are.
#[tactic(auto, unfolding(model::specs::Sizes::max_batch))]
fn sort_rows(ops: &[u64], k: usize, out: &mut [u64]) -> usize
    requires { (k * op_words ≤ length ops.now) × (k ≤ max_batch) × (k ≤ length out.old) }
    ensures { (result ≡ length (ordered (pieces op_words k ops.now))) × (out.new ≡ ordered (pieces op_words k ops.now) ++ drop result out.old) }
{
    let mut spare = zeros::<MAX_BATCH>();
    let mut ranks = zeros::<MAX_RANKS>();
    order_rows(ops, k, out, &mut spare, &mut ranks)
}

// Each new row, in the order in which it comes out, and the row before which it goes.
fn find_spots(
    rows: &[u64],
    n: usize,
    ops: &[u64],
    sorted: &[u64],
    objects: &mut [u64],
    tags: &mut [u64],
    stack: &mut [u64],
    order: &mut [u64],
    places: &mut [u64],
)
    requires { Grouped rows.now n ops.now sorted.now × ((1 + n + length sorted.now) * 2 ≤ length stack.old) × (length objects.old ≡ length sorted.now) × (length tags.old ≡ length sorted.now) × (length order.old ≡ length sorted.now) × (length places.old ≡ length sorted.now) }
    ensures { (news_in (doc_out (new_rows_of ops.now sorted.now) (doc_from rows.now n 0)) ≡ new_rows_of ops.now order.new) × (places_in 0 (doc_out (new_rows_of ops.now sorted.now) (doc_from rows.now n 0)) ≡ places.new) × All (λ x. Mem x sorted.now) order.new }
{
    write_objects(ops, sorted, objects);
    let news = NewRows {
        rows,
        n,
        ops,
        sorted,
        objects,
    };
    walk_doc(&news, tags, stack, order, places);
}

// The new rows `sorted`, put in; the other tables are room for a number each.
fn place_rows(
    rows: &mut [u64],
    n: usize,
    ops: &[u64],
    sorted: &[u64],
    objects: &mut [u64],
    tags: &mut [u64],
    stack: &mut [u64],
    order: &mut [u64],
    places: &mut [u64],
)
    requires { Mergeable rows.old n ops.now sorted.now × ((1 + n + length sorted.now) * 2 ≤ length stack.old) × (length objects.old ≡ length sorted.now) × (length tags.old ≡ length sorted.now) × (length order.old ≡ length sorted.now) × (length places.old ≡ length sorted.now) }
    ensures { rows.new ≡ over rows.old (map row_in (doc_out (new_rows_of ops.now sorted.now) (doc_from rows.old n 0))) }
{
    find_spots(rows, n, ops, sorted, objects, tags, stack, order, places);
    place(rows, ROW_WORDS, n, ops, OP_WORDS, order, places);
}

// Those of k operations, among the n of the document.
#[tactic(auto, unfolding(model::specs::Sizes::max_batch))]
pub(crate) fn write_rows(rows: &mut [u64], n: usize, ops: &[u64], k: usize, room: &mut [u64])
    requires { (k * op_words ≤ length ops.now) × (k ≤ max_batch) × Mergeable rows.old n ops.now (ordered (pieces op_words k ops.now)) × ((1 + n + max_batch) * 2 ≤ length room.old) }
    ensures { rows.new ≡ over rows.old (map row_in (doc_out (new_rows_of ops.now (ordered (pieces op_words k ops.now))) (doc_from rows.old n 0))) }
{
    let mut sorted = zeros::<MAX_BATCH>();
    let t = sort_rows(ops, k, &mut sorted);
    let mut objects = zeros::<MAX_BATCH>();
    let mut tags = zeros::<MAX_BATCH>();
    let mut order = zeros::<MAX_BATCH>();
    let mut places = zeros::<MAX_BATCH>();
    place_rows(
        rows,
        n,
        ops,
        &sorted[..t],
        &mut objects[..t],
        &mut tags[..t],
        room,
        &mut order[..t],
        &mut places[..t],
    );
}
