// The picture, for C.
ghost use Rattle.std.specs.Prelude.{◌≡◌, [], ◌∷◌};
ghost use Rattle.model.specs.Exports.{picture_exported};
ghost use Rattle.exports.specs.Plain.{outcome};

#[unsafe(no_mangle)]
pub extern "C" fn gantrysnip_picture(
    rows: &[u64],
    succs: &[u64],
    row_count: u64,
    succ_count: u64,
    clock: &[u64],
    out: &mut [u64],
    room: &mut [u64],
    answer: &mut [u64],
) -> u64
    ensures { outcome result answer.new (rows.now ∷ succs.now ∷ clock.now ∷ out.new ∷ room.new ∷ []) ≡ picture_exported row_count rows.now succ_count succs.now clock.now out.old room.old answer.old }
{
    exports::picture::gantrysnip_picture(
        rows, succs, row_count, succ_count, clock, out, room, answer,
    )
}
