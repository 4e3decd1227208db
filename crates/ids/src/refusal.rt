// Why a call is refused, and where (01, "What comes back").
ghost use Rattle.std.specs.Prelude.{◌≡◌};
ghost use Rattle.ids.specs.Refusals.{reason_number};

#[derive(Clone, Copy, PartialEq, Eq)]
pub enum Reason {
    // A lent slice has not its documented size.
    Unsized = 1,
    // The document is not well-formed.
    Unformed = 2,
    // The batch has too many operations.
    LongBatch = 3,
    Malformed = 4,
    // The id is also earlier in the batch, or in the document.
    IdTaken = 5,
    NoObject = 6,
    NoElement = 7,
    NoPredecessor = 8,
    // Rows or successors would pass their limits.
    Full = 9,
    // The spot's target is above the visible elements.
    InvalidIndex = 10,
    // The spot's object is no list of the document.
    NoList = 12,
}

impl Reason {
    pub fn number(self) -> u64
        ensures { result ≡ reason_number self }
    {
        self as u64
    }
}

// The place is an operation of the batch, by number from 0; 0 where the whole is refused.
#[derive(Clone, Copy, PartialEq, Eq)]
pub struct Refusal {
    pub reason: Reason,
    pub place: usize,
}

// A refusal of the whole.
impl From<Reason> for Refusal {
    ghost from_gives = { λ reason refusal. refusal ≡ record { reason = reason; place = 0 } };

    fn from(reason: Reason) -> Refusal {
        Refusal { reason, place: 0 }
    }
}
