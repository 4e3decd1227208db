// How many numbers of a rising table are below another.
ghost use Rattle.std.specs.Prelude.{◌≡◌, map};
ghost use Rattle.model.specs.Row.{object_of};
ghost use Rattle.batch.specs.Places.{Rising};
ghost use Rattle.batch.specs.Walk.{lower, doc_from};
ghost use Rattle.batch.specs.Groups.{below};

use ids::piece::Row;

// Of the table's words.
pub(crate) fn lower(tags: &[u64], v: u64) -> usize
    requires { Rising tags.now }
    ensures { result ≡ lower v tags.now }
{
    tags.partition_point(|&tag| tag < v)
}

// Of n rows in which objects ascend, how many have an object below this one. By halving.
pub(crate) fn rows_below(rows: &[u64], n: usize, object: u64) -> usize
    requires { Rising (map object_of (doc_from rows.now n 0)) }
    ensures { result ≡ below object (doc_from rows.now n 0) }
{
    let mut from = 0;
    let mut to = n;
    while from < to {
        let mid = from + (to - from) / 2;
        if Row::nth(rows, mid).object() < object {
            from = mid + 1;
        } else {
            to = mid;
        }
    }
    from
}
