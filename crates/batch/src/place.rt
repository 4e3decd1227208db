// New pieces put among those of a table in one pass from the back: each old one is moved at most once. Each turn moves
// one of two cursors. The table is words and a count, since it is shifted by index (01).
ghost use Rattle.std.specs.Prelude.{◌≡◌, ◌*◌, ◌+◌, ◌≤◌, length, drop};
ghost use Rattle.model.specs.Basic.{pieces};
ghost use Rattle.laws.proofs.Placing.{put_at};
ghost use Rattle.batch.specs.Places.{picked, Asked};

// Pieces of w words: new ones are numbers `order` of src, one every `stride` words, and the j-th goes before old piece `places[j]` of n.
pub(crate) fn place(
    table: &mut [u64],
    w: usize,
    n: usize,
    src: &[u64],
    stride: usize,
    order: &[u64],
    places: &[u64],
)
    requires { ((n + length order.now) * w ≤ length table.old) × Asked w n stride src.now order.now places.now }
    ensures { (pieces w (n + length order.now) table.new ≡ put_at (picked w stride src.now order.now) places.now (pieces w n table.old)) × (drop ((n + length order.now) * w) table.new ≡ drop ((n + length order.now) * w) table.old) }
{
    let mut s = n;
    let mut j = order.len();
    while 0 < j {
        let q = j - 1;
        let p = places[q] as usize;
        if p < s {
            let t = s - 1;
            table.copy_within(t * w..t * w + w, (t + j) * w);
            s = t;
        } else {
            let x = order[q] as usize;
            let to = (s + q) * w;
            let from = x * stride;
            table[to..to + w].copy_from_slice(&src[from..from + w]);
            j = q;
        }
    }
}
