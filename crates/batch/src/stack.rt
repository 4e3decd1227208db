// Runs of new rows that wait: a pair of words each, the first of the run and how many follow it.
// An array and a depth in the working room, as 01 asks of a stack.
ghost use Rattle.std.specs.Prelude.{◌≡◌, ◌∷◌, ◌++◌, ◌+◌, ◌-◌, ◌*◌, ◌<◌, ◌≤◌, length, get_or};
ghost use Rattle.laws.proofs.Members.{All};
ghost use Rattle.batch.specs.Walk.{fall, stacked, top_of};

// The run from .. to goes on top, if it has any; how many runs there are then.
pub(crate) fn push(stack: &mut [u64], depth: usize, from: usize, to: usize) -> usize
    requires { depth * 2 + 2 ≤ length stack.old }
    ensures { (stacked stack.new result ≡ fall from (to - from) ++ stacked stack.old depth) × (result ≤ depth + 1) }
{
    if to <= from {
        return depth;
    }
    stack[depth * 2] = from as u64;
    stack[depth * 2 + 1] = (to - from - 1) as u64;
    depth + 1
}

// The number that the last of the topmost run has in `group`.
pub(crate) fn top(stack: &[u64], depth: usize, group: &[u64]) -> u64
    requires { (0 < depth) × (depth * 2 ≤ length stack.now) × All (λ j. j < length group.now) (stacked stack.now depth) }
    ensures { result ≡ get_or group.now (top_of stack.now depth) 0 }
{
    let k = depth - 1;
    let j = stack[k * 2] + stack[k * 2 + 1];
    group[j as usize]
}

// It is taken off; how many runs there are then.
pub(crate) fn pop(stack: &mut [u64], depth: usize) -> usize
    requires { (0 < depth) × (depth * 2 ≤ length stack.old) }
    ensures { (stacked stack.old depth ≡ top_of stack.old depth ∷ stacked stack.new result) × (result ≤ depth) }
{
    let k = depth - 1;
    let more = stack[k * 2 + 1];
    if more == 0 {
        return k;
    }
    stack[k * 2 + 1] = more - 1;
    depth
}
