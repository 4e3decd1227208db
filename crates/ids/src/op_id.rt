// An id is one number, counter * 64 + actor, so that ids compare as numbers do.
ghost use Rattle.std.specs.Prelude.{◌≡◌};
ghost use Rattle.model.specs.Id.{counter, actor, covered};
ghost use Rattle.ids.specs.Compared.{compared};

use crate::sizes::ACTORS;
use std::cmp::Ordering;

#[derive(Clone, Copy, PartialEq, Eq, PartialOrd, Ord)]
pub struct OpId(pub u64);

impl OpId {
    // The root object: no operation has this id.
    pub const ROOT: OpId = OpId(0);

    // The place before a list's first element: no operation has this id.
    pub const HEAD: OpId = OpId(0);

    pub fn counter(self) -> u64
        ensures { result ≡ counter self.0 }
    {
        self.0 / ACTORS
    }

    pub fn actor(self) -> u64
        ensures { result ≡ actor self.0 }
    {
        self.0 % ACTORS
    }

    // By counter, then actor.
    #[tactic(auto, using(crate::proofs::Ids::compared_numbers))]
    pub fn compare(self, other: OpId) -> Ordering
        ensures { result ≡ compared self.0 other.0 }
    {
        self.0.cmp(&other.0)
    }

    // A clock of no words covers everything; an actor that it has no word for has counter 0.
    #[tactic(auto, unfolding(model::specs::Id::covered))]
    pub fn covered(self, clock: &[u64]) -> bool
        ensures { result ≡ covered clock.now self.0 }
    {
        if clock.is_empty() {
            return true;
        }
        let known = clock.get(self.actor() as usize).copied().unwrap_or(0);
        self.counter() <= known
    }
}
