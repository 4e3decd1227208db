// The successor entries that a batch makes, in the order of its operations and of their predecessors.
ghost use Rattle.std.specs.Prelude.{◌≡◌, ◌*◌, ◌+◌, ◌≤◌, length};
ghost use Rattle.std.proofs.lemmas.List.Edits.{sets};
ghost use Rattle.model.specs.Sizes.{succ_words};
ghost use Rattle.batch.specs.Entries.{counts, carried, entry_by};

use ids::kinds::{Action, ValueKind};
use ids::piece::{Op, Piece};
use ids::row::{ID, VALUE_KIND};
use ids::sizes::SUCC_WORDS;

// Has the row this id, and is it a counter? An operation's first words are its row's.
#[tactic(auto, unfolding(crate::specs::Entries::counts))]
pub(crate) fn counts<const W: usize>(row: &Piece<'_, W>, id: u64) -> bool
    ensures { result ≡ counts id row.now }
{
    row.word(ID) == id && row.word(VALUE_KIND) == ValueKind::Counter as u64
}

// Does the operation's entry carry an increment, where its predecessor is a counter or not? A yes or no, with no value beside it.
#[tactic(auto, unfolding(crate::specs::Entries::carried), using(crate::proofs::EntryWords::row_word))]
fn carries(op: &Op<'_>, counter: bool) -> bool
    ensures { result ≡ carried op.now counter }
{
    op.row().does(Action::Increment) && counter
}

// The operation's entry for predecessor p.
#[tactic(auto, unfolding(crate::specs::Entries::entry_by), using(crate::proofs::EntryWords::row_word))]
fn entry_by(op: &Op<'_>, p: u64, counter: bool) -> [u64; SUCC_WORDS]
    ensures { result ≡ entry_by counter op.now p }
{
    let row = op.row();
    if carries(op, counter) {
        [p, row.id(), 1, row.value()]
    } else {
        [p, row.id(), 0, 0]
    }
}

// The same, in the place of entry t.
pub(crate) fn write_entry(op: &Op<'_>, p: u64, counter: bool, out: &mut [u64], t: usize)
    requires { t * succ_words + succ_words ≤ length out.old }
    ensures { out.new ≡ sets out.old (t * succ_words) (entry_by counter op.now p) }
{
    let at = t * SUCC_WORDS;
    out[at..at + SUCC_WORDS].copy_from_slice(&entry_by(op, p, counter));
}
