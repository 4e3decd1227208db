// The documented sizes, for C.
ghost use Rattle.std.specs.Prelude.{◌≡◌};
ghost use Rattle.model.specs.Exports.{size_of};

#[unsafe(no_mangle)]
pub extern "C" fn gantrysnip_size(which: u64) -> u64
    ensures { result ≡ size_of which }
{
    exports::size::gantrysnip_size(which)
}
