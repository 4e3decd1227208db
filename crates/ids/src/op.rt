// An operation of a batch: the words of its row, then its predecessors.
ghost use Rattle.std.specs.Prelude.{◌≡◌, find};
ghost use Rattle.ids.specs.Words.{starts_with};
ghost use Rattle.model.specs.Row.{row_of, pred_count_of, pred_room_of, preds_of};

use crate::piece::{Op, Piece, Row};
use crate::row::ID;
use crate::sizes::{OP_WORDS, ROW_WORDS};
use crate::table::Table;

pub const PRED_COUNT: usize = ROW_WORDS;

pub const PREDS: usize = PRED_COUNT + 1;

impl<'a> Table<'a, OP_WORDS> {
    // The first operation with this id: an operation's first word is its row's. Those that the slice holds whole are gone through by themselves.
    pub fn with_id(&self, id: u64) -> Option<Op<'a>>
        ensures { result ≡ find (starts_with id) self.now }
    {
        let parts = self.parted();
        let found = parts.whole.iter().find(|op| op.word(ID) == id);
        if found.is_some() {
            return found;
        }
        parts.short.iter().find(|op| op.word(ID) == id)
    }
}

impl<'a> Piece<'a, OP_WORDS> {
    pub fn row(&self) -> Row<'a>
        ensures { result ≡ row_of self.now }
    {
        Piece::at(self.words, 0)
    }

    pub fn pred_count(&self) -> u64
        ensures { result ≡ pred_count_of self.now }
    {
        self.word(PRED_COUNT)
    }

    // The slots for predecessors, in use or not.
    pub fn pred_room(&self) -> &'a [u64]
        ensures { result.now ≡ pred_room_of self.now }
    {
        &self.words[PREDS.min(self.words.len())..]
    }

    // The slots in use.
    pub fn preds(&self) -> &'a [u64]
        ensures { result.now ≡ preds_of self.now }
    {
        let room = self.pred_room();
        &room[..room.len().min(self.pred_count() as usize)]
    }
}
