// A successor entry's words by name.
ghost use Rattle.std.specs.Prelude.{◌≡◌};
ghost use Rattle.model.specs.Row.{owner_of, succ_of, carries_of, carries, carried_of};

use crate::piece::Piece;
use crate::sizes::SUCC_WORDS;

const OWNER: usize = 0;

const SUCC: usize = 1;

const CARRIES: usize = 2;

const CARRIED: usize = 3;

impl<'a> Piece<'a, SUCC_WORDS> {
    // The id of the row that the entry belongs to.
    pub fn owner(&self) -> u64
        ensures { result ≡ owner_of self.now }
    {
        self.word(OWNER)
    }

    // The successor's id.
    pub fn id(&self) -> u64
        ensures { result ≡ succ_of self.now }
    {
        self.word(SUCC)
    }

    // Does the entry carry an increment?
    pub fn carries(&self) -> bool
        ensures { result ≡ carries self.now }
    {
        self.flag() == 1
    }

    pub fn flag(&self) -> u64
        ensures { result ≡ carries_of self.now }
    {
        self.word(CARRIES)
    }

    pub fn carried(&self) -> u64
        ensures { result ≡ carried_of self.now }
    {
        self.word(CARRIED)
    }
}
