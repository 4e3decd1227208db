// All objects that have new rows, one after the other: each new row gets the row before which it goes.
ghost use Rattle.std.specs.Prelude.{◌≡◌, ◌+◌, ◌-◌, ◌*◌, ◌<◌, ◌≤◌, length};
ghost use Rattle.laws.proofs.Members.{All, Mem};
ghost use Rattle.laws.proofs.Placing.{news_in, places_in};
ghost use Rattle.batch.specs.Walk.{doc_from, new_rows_of};
ghost use Rattle.batch.specs.Groups.{object_out, doc_out, Object};
ghost use Rattle.batch.specs.Walks.{Told, Between};

use crate::group_words::write_tags;
use crate::op_row::op_row;
use crate::runs::{lower, rows_below};
use crate::walk_list::{List, walk_list};
use crate::walk_map::walk_map;

// A document's n rows and its new rows: numbers among the batch's operations, in the order of their ranks, with the object of each.
#[derive(Drop)]
pub(crate) struct NewRows<'a> {
    pub rows: &'a [u64],
    pub n: usize,
    pub ops: &'a [u64],
    pub sorted: &'a [u64],
    pub objects: &'a [u64],
}

// One object: rows a .. z are its rows, `group` its new rows by number.
fn walk_object(
    rows: &[u64],
    a: usize,
    z: usize,
    ops: &[u64],
    group: &[u64],
    tags: &mut [u64],
    stack: &mut [u64],
    order: &mut [u64],
    places: &mut [u64],
)
    requires { Object rows.now a z ops.now group.now × ((1 + (z - a) + length group.now) * 2 ≤ length stack.old) × (length tags.old ≡ length group.now) × (length order.old ≡ length group.now) × (length places.old ≡ length group.now) }
    ensures { (news_in (object_out (new_rows_of ops.now group.now) (doc_from rows.now z a)) ≡ new_rows_of ops.now order.new) × (places_in a (object_out (new_rows_of ops.now group.now) (doc_from rows.now z a)) ≡ places.new) × All (λ x. Mem x group.now) order.new }
{
    if op_row(ops, group[0]).on_list() {
        write_tags(ops, group, tags);
        let list = List {
            rows,
            a,
            z,
            ops,
            group,
            tags,
        };
        walk_list(&list, stack, order, places);
        return;
    }
    walk_map(rows, a, z, ops, group, order, places);
}

// The object of new row `lo`, with all its new rows; the first new row behind them.
fn walk_next(
    news: &NewRows<'_>,
    lo: usize,
    tags: &mut [u64],
    stack: &mut [u64],
    order: &mut [u64],
    places: &mut [u64],
) -> usize
    requires { Told news.now × ((1 + news.now.n + length news.now.sorted.now) * 2 ≤ length stack.old) × (length tags.old ≡ length news.now.sorted.now) × (lo < length news.now.sorted.now) × Between news.now order.old places.old lo }
    ensures { Between news.now order.new places.new result × (lo < result) }
{
    let object = news.objects[lo];
    let hi = lower(news.objects, object + 1);
    let a = rows_below(news.rows, news.n, object);
    let z = rows_below(news.rows, news.n, object + 1);
    walk_object(
        news.rows,
        a,
        z,
        news.ops,
        &news.sorted[lo..hi],
        &mut tags[lo..hi],
        stack,
        &mut order[lo..hi],
        &mut places[lo..hi],
    );
    hi
}

// Each new row, in the order in which it comes out, and the row before which it goes. An object a turn.
pub(crate) fn walk_doc(
    news: &NewRows<'_>,
    tags: &mut [u64],
    stack: &mut [u64],
    order: &mut [u64],
    places: &mut [u64],
)
    requires { Told news.now × ((1 + news.now.n + length news.now.sorted.now) * 2 ≤ length stack.old) × (length tags.old ≡ length news.now.sorted.now) × (length order.old ≡ length news.now.sorted.now) × (length places.old ≡ length news.now.sorted.now) }
    ensures { (news_in (doc_out (new_rows_of news.now.ops.now news.now.sorted.now) (doc_from news.now.rows.now news.now.n 0)) ≡ new_rows_of news.now.ops.now order.new) × (places_in 0 (doc_out (new_rows_of news.now.ops.now news.now.sorted.now) (doc_from news.now.rows.now news.now.n 0)) ≡ places.new) × All (λ x. Mem x news.now.sorted.now) order.new }
{
    let mut lo = 0;
    while lo < news.sorted.len() {
        lo = walk_next(news, lo, tags, stack, order, places);
    }
}
