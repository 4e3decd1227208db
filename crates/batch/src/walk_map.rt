// The MapWalker: a walk over the rows of one map, beside its new rows, both in the order of their ranks.
ghost use Rattle.std.specs.Prelude.{◌≡◌, ◌*◌, length};
ghost use Rattle.model.specs.Sizes.{row_words, op_words};
ghost use Rattle.laws.proofs.Placing.{news_in, places_in};
ghost use Rattle.batch.specs.Parts.{part};
ghost use Rattle.batch.specs.Walk.{doc_from, new_rows_of};
ghost use Rattle.batch.specs.Groups.{map_first, map_out, Mapped};

use crate::op_row::op_row;
use crate::order_ops::rank_before;
use ids::piece::Row;

// Does the map's next row, d of those before z, go before operation x of the batch?
fn map_first(rows: &[u64], d: usize, z: usize, ops: &[u64], x: u64) -> bool
    ensures { result ≡ map_first (part row_words ops.now (x * op_words)) (doc_from rows.now z d) }
{
    d < z && !rank_before(&op_row(ops, x), &Row::nth(rows, d))
}

// Rows a .. z are a map's, `group` its new rows by number, sorted: each, and the row before which it goes.
// Each turn moves one of two cursors.
pub(crate) fn walk_map(
    rows: &[u64],
    a: usize,
    z: usize,
    ops: &[u64],
    group: &[u64],
    order: &mut [u64],
    places: &mut [u64],
)
    requires { Mapped rows.now a z ops.now group.now × (length order.old ≡ length group.now) × (length places.old ≡ length group.now) }
    ensures { (news_in (map_out (new_rows_of ops.now group.now) (doc_from rows.now z a)) ≡ new_rows_of ops.now order.new) × (places_in a (map_out (new_rows_of ops.now group.now) (doc_from rows.now z a)) ≡ places.new) × (order.new ≡ group.now) }
{
    let mut d = a;
    let mut o = 0;
    while o < group.len() {
        let x = group[o];
        if map_first(rows, d, z, ops, x) {
            d += 1;
        } else {
            order[o] = x;
            places[o] = d as u64;
            o += 1;
        }
    }
}
