// The insertion spot, for C.
ghost use Rattle.std.specs.Prelude.{◌≡◌, [], ◌∷◌};
ghost use Rattle.model.specs.Exports.{spot_exported};
ghost use Rattle.exports.specs.Plain.{outcome};

#[unsafe(no_mangle)]
pub extern "C" fn gantrysnip_spot(
    rows: &[u64],
    succs: &[u64],
    row_count: u64,
    succ_count: u64,
    clock: &[u64],
    object: u64,
    target: u64,
    room: &mut [u64],
    answer: &mut [u64],
) -> u64
    ensures { outcome result answer.new (rows.now ∷ succs.now ∷ clock.now ∷ room.new ∷ []) ≡ spot_exported row_count rows.now succ_count succs.now clock.now object target room.old answer.old }
{
    exports::spot::gantrysnip_spot(
        rows, succs, row_count, succ_count, clock, object, target, room, answer,
    )
}
