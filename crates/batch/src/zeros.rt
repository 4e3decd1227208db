// Room for numbers, which are written before they are read.
ghost use Rattle.std.specs.Prelude.{◌≡◌, length};

pub(crate) fn zeros<const N: usize>() -> [u64; N]
    ensures { length result ≡ N }
{
    [0; N]
}
