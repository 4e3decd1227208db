// The Untangler: a walk over the rows of one list that puts each new row before the row that it belongs before.
ghost use Rattle.std.specs.Prelude.{◌≡◌, true, false, ◌++◌, ◌+◌, ◌-◌, ◌*◌, ◌<◌, ◌≤◌, length};
ghost use Rattle.model.specs.Sizes.{row_words, op_words, word_range};
ghost use Rattle.laws.proofs.Members.{All};
ghost use Rattle.batch.specs.Parts.{part};
ghost use Rattle.batch.specs.Places.{Rising};
ghost use Rattle.batch.specs.Walk.{row_first, wait_first, lower, fall, stacked, doc_from};
ghost use Rattle.batch.specs.Walks.{Sound, At, Walked, waits, left};

use crate::op_row::op_row;
use crate::runs::lower;
use crate::stack::{pop, push, top};
use ids::piece::Row;

// A list and its new rows: rows a .. z of the document's, and numbers among the batch's operations, sorted, with a tag each.
#[derive(Drop)]
pub(crate) struct List<'a> {
    pub rows: &'a [u64],
    pub a: usize,
    pub z: usize,
    pub ops: &'a [u64],
    pub group: &'a [u64],
    pub tags: &'a [u64],
}

// Where a walk is: at a row of the list, at the updates of the element that was put out last, at so many runs that wait, at an output.
#[derive(Drop)]
pub(crate) struct Cursor {
    pub row: usize,
    pub update: usize,
    pub end: usize,
    pub depth: usize,
    pub out: usize,
}

// What waits for an element: updates first .. end, and its inserts, on top of the runs that wait.
#[derive(Drop)]
pub(crate) struct Opened {
    pub first: usize,
    pub end: usize,
    pub depth: usize,
}

// Does the list's next row, d of those before z, go before update x of the batch?
fn row_first(list: &List<'_>, d: usize, x: u64) -> bool
    ensures { result ≡ row_first (part row_words list.now.ops.now (x * op_words)) (doc_from list.now.rows.now list.now.z d) }
{
    if list.z <= d {
        return false;
    }
    let row = Row::nth(list.rows, d);
    !row.is_insert() && row.id() <= op_row(list.ops, x).id()
}

// Does what waits on top go before the list's next row?
fn wait_first(list: &List<'_>, d: usize, stack: &[u64], depth: usize) -> bool
    requires { (depth * 2 ≤ length stack.now) × All (λ j. j < length list.now.group.now) (stacked stack.now depth) }
    ensures { result ≡ waits list.now stack.now depth d }
{
    if depth == 0 {
        return false;
    }
    if list.z <= d {
        return true;
    }
    let row = Row::nth(list.rows, d);
    row.is_insert() && row.id() < op_row(list.ops, top(stack, depth, list.group)).id()
}

fn open_element(tags: &[u64], e: u64, stack: &mut [u64], depth: usize) -> Opened
    requires { Rising tags.now × (e * 2 + 2 < word_range) × (depth * 2 + 2 ≤ length stack.old) }
    ensures { (result.first ≡ lower (e * 2) tags.now) × (result.end ≡ lower (e * 2 + 1) tags.now) × (stacked stack.new result.depth ≡ fall (lower (e * 2 + 1) tags.now) (lower (e * 2 + 2) tags.now - lower (e * 2 + 1) tags.now) ++ stacked stack.old depth) × (result.depth ≤ depth + 1) }
{
    let first = lower(tags, e * 2);
    let end = lower(tags, e * 2 + 1);
    let last = lower(tags, e * 2 + 2);
    Opened {
        first,
        end,
        depth: push(stack, depth, end, last),
    }
}

// The steps. Each is lent all that its promise, the walk's state before and after, speaks of, whether it reads it or not.

// An update is next, or a row of its element.
fn step_update(
    list: &List<'_>,
    stack: &[u64],
    at: Cursor,
    order: &mut [u64],
    places: &mut [u64],
) -> Cursor
    requires { Sound list.now × At list.now stack.now order.old places.old at × (at.out < length list.now.group.now) × (at.update < at.end) }
    ensures { At list.now stack.now order.new places.new result × (left list.now result < left list.now at) }
{
    let x = list.group[at.update];
    if row_first(list, at.row, x) {
        return Cursor {
            row: at.row + 1,
            ..at
        };
    }
    order[at.out] = x;
    places[at.out] = at.row as u64;
    Cursor {
        update: at.update + 1,
        out: at.out + 1,
        ..at
    }
}

// What waits on top is next.
fn step_waiting(
    list: &List<'_>,
    stack: &mut [u64],
    at: Cursor,
    order: &mut [u64],
    places: &mut [u64],
) -> Cursor
    requires { Sound list.now × At list.now stack.old order.old places.old at × (at.out < length list.now.group.now) × (at.end ≤ at.update) × (waits list.now stack.old at.depth at.row ≡ true) }
    ensures { At list.now stack.new order.new places.new result × (left list.now result < left list.now at) }
{
    let x = top(stack, at.depth, list.group);
    order[at.out] = x;
    places[at.out] = at.row as u64;
    let left = pop(stack, at.depth);
    let opened = open_element(list.tags, op_row(list.ops, x).id(), stack, left);
    Cursor {
        row: at.row,
        update: opened.first,
        end: opened.end,
        depth: opened.depth,
        out: at.out + 1,
    }
}

// The list's next row is next.
fn step_row(list: &List<'_>, stack: &mut [u64], at: Cursor, order: &[u64], places: &[u64]) -> Cursor
    requires { Sound list.now × At list.now stack.old order.now places.now at × (at.out < length list.now.group.now) × (at.end ≤ at.update) × (waits list.now stack.old at.depth at.row ≡ false) }
    ensures { At list.now stack.new order.now places.now result × (left list.now result < left list.now at) }
{
    let next = Row::nth(list.rows, at.row);
    if next.is_insert() {
        let opened = open_element(list.tags, next.id(), stack, at.depth);
        return Cursor {
            row: at.row + 1,
            update: opened.first,
            end: opened.end,
            depth: opened.depth,
            out: at.out,
        };
    }
    Cursor {
        row: at.row + 1,
        ..at
    }
}

// One row is put out.
fn step(
    list: &List<'_>,
    stack: &mut [u64],
    at: Cursor,
    order: &mut [u64],
    places: &mut [u64],
) -> Cursor
    requires { Sound list.now × At list.now stack.old order.old places.old at × (at.out < length list.now.group.now) }
    ensures { At list.now stack.new order.new places.new result × (left list.now result < left list.now at) }
{
    if at.update < at.end {
        return step_update(list, stack, at, order, places);
    }
    if wait_first(list, at.row, stack, at.depth) {
        return step_waiting(list, stack, at, order, places);
    }
    step_row(list, stack, at, order, places)
}

// Each new row of the list, in the order in which it comes out, and the row before which it goes.
// A turn takes the cursor one row further.
pub(crate) fn walk_list(list: &List<'_>, stack: &mut [u64], order: &mut [u64], places: &mut [u64])
    requires { Sound list.now × ((1 + (list.now.z - list.now.a) + length list.now.group.now) * 2 ≤ length stack.old) × (length order.old ≡ length list.now.group.now) × (length places.old ≡ length list.now.group.now) }
    ensures { Walked list.now order.new places.new }
{
    let head = lower(list.tags, 1);
    let depth = push(stack, 0, head, lower(list.tags, 2));
    let mut at = Cursor {
        row: list.a,
        update: 0,
        end: 0,
        depth,
        out: 0,
    };
    while at.out < list.group.len() {
        at = step(list, stack, at, order, places);
    }
}
