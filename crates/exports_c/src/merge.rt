// The merge, for C.
ghost use Rattle.std.specs.Prelude.{◌≡◌, [], ◌∷◌};
ghost use Rattle.model.specs.Exports.{merge_exported};
ghost use Rattle.exports.specs.Plain.{outcome};

#[unsafe(no_mangle)]
pub extern "C" fn gantrysnip_merge(
    rows: &mut [u64],
    succs: &mut [u64],
    row_count: u64,
    succ_count: u64,
    batch: &[u64],
    op_count: u64,
    room: &mut [u64],
    answer: &mut [u64],
) -> u64
    ensures { outcome result answer.new (rows.new ∷ succs.new ∷ batch.now ∷ room.new ∷ []) ≡ merge_exported row_count rows.old succ_count succs.old op_count batch.now room.old answer.old }
{
    exports::merge::gantrysnip_merge(
        rows, succs, row_count, succ_count, batch, op_count, room, answer,
    )
}
