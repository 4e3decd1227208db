// The bytes of a map key past its length.
ghost use Rattle.std.specs.Prelude.{◌≡◌};
ghost use Rattle.checks.specs.Fits.{zero_past, key_zero_past, key_zero};

use crate::sizes::WORD_BYTES;
use ids::piece::Row;
use ids::row::{KEY_WORD, KEY_WORD_2, KEY_WORD_3};

// Are the bytes of a word zero past its first n?
fn zero_past(w: u64, n: u64) -> bool
    ensures { result ≡ zero_past n w }
{
    w.to_be_bytes().iter().skip(n as usize).all(|b| *b == 0)
}

// Are the places for the key's bytes zero past its length?
#[tactic(auto, using(crate::proofs::BytesPast::key_past))]
pub fn key_zero_past(row: &Row<'_>) -> bool
    ensures { result ≡ key_zero_past row.now }
{
    let n = row.key_length();
    let n2 = n.saturating_sub(WORD_BYTES);
    zero_past(row.word(KEY_WORD), n)
        && zero_past(row.word(KEY_WORD_2), n2)
        && zero_past(row.word(KEY_WORD_3), n2.saturating_sub(WORD_BYTES))
}

// Are all of them zero?
#[tactic(auto, using(crate::proofs::BytesPast::key_none))]
pub fn key_zero(row: &Row<'_>) -> bool
    ensures { result ≡ key_zero row.now }
{
    row.word(KEY_WORD) == 0 && row.word(KEY_WORD_2) == 0 && row.word(KEY_WORD_3) == 0
}
