// The checks that are made of each operation, 4 to 8.
ghost use Rattle.std.specs.Prelude.{◌≡◌};
ghost use Rattle.refusal.specs.Checks.{check_reason};

use ids::refusal::Reason;

#[derive(Clone, Copy, PartialEq, Eq)]
pub(crate) enum Check {
    Form,
    Id,
    Object,
    Element,
    Predecessors,
}

impl From<Check> for Reason {
    ghost from_gives = { λ check reason. reason ≡ check_reason check };

    fn from(check: Check) -> Reason {
        match check {
            Check::Form => Reason::Malformed,
            Check::Id => Reason::IdTaken,
            Check::Object => Reason::NoObject,
            Check::Element => Reason::NoElement,
            Check::Predecessors => Reason::NoPredecessor,
        }
    }
}
