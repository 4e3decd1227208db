// One number for each new row of a group, read from the batch's operations. Two loops of two lines: a common one would take a function of
// the row, with its bound that a tag fits a word.
ghost use Rattle.std.specs.Prelude.{◌≡◌, map, ◌<◌, length};
ghost use Rattle.model.specs.Row.{object_of};
ghost use Rattle.model.specs.Sizes.{word_range};
ghost use Rattle.laws.proofs.Members.{All};
ghost use Rattle.batch.specs.Walk.{tag_of, new_rows_of};
ghost use Rattle.batch.specs.Groups.{tags_of};

use crate::op_row::op_row;

// Their tags.
pub(crate) fn write_tags(ops: &[u64], group: &[u64], tags: &mut [u64])
    requires { All (λ r. tag_of r < word_range) (new_rows_of ops.now group.now) × (length tags.old ≡ length group.now) }
    ensures { tags.new ≡ tags_of ops.now group.now }
{
    for (j, &x) in group.iter().enumerate() {
        let row = op_row(ops, x);
        let insert = row.insert();
        tags[j] = row.named() * 2 + insert;
    }
}

// Their objects.
pub(crate) fn write_objects(ops: &[u64], group: &[u64], objects: &mut [u64])
    requires { length objects.old ≡ length group.now }
    ensures { objects.new ≡ map object_of (new_rows_of ops.now group.now) }
{
    for (j, &x) in group.iter().enumerate() {
        objects[j] = op_row(ops, x).object();
    }
}
