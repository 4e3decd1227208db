// An entry of the picture.
ghost use Rattle.std.specs.Prelude.{◌≡◌};
ghost use Rattle.found_op.specs.Entry.{entry_of};

use crate::group::Found;
use ids::piece::Row;
use ids::row::{KEY_WORD, KEY_WORD_2, KEY_WORD_3};
use ids::sizes::ENTRY_WORDS;
use visible::sum::Outgrown;

// A picture entry's mark: the counter's total does not fit. A number, since it is a word of the output (the C interface).
const OUTGROWN_MARK: u64 = 11;

// The row's entry, from what is found in its group and what the row shows. A map row has no element.
#[tactic(auto, unfolding(crate::specs::Entry::entry_of))]
pub(crate) fn entry(row: &Row<'_>, found: Found, shown: Result<u64, Outgrown>) -> [u64; ENTRY_WORDS]
    ensures { result ≡ entry_of row.now found shown }
{
    let element = if row.on_list() { row.element() } else { 0 };
    let (value, mark) = match shown {
        Ok(value) => (value, 0),
        Err(Outgrown) => (0, OUTGROWN_MARK),
    };
    [
        row.id(),
        row.object(),
        row.key_kind(),
        element,
        row.key_length(),
        row.word(KEY_WORD),
        row.word(KEY_WORD_2),
        row.word(KEY_WORD_3),
        row.action(),
        row.value_kind(),
        value,
        u64::from(row.id() == found.winner),
        u64::from(found.count >= 2),
        mark,
    ]
}
