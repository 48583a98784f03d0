// Document 01's number and place of a refusal.
ghost use Rattle.std.specs.Prelude.{◌≡◌};
ghost use Rattle.graph.specs.Refusals.{number_of, place_of};

use crate::Refusal;

impl Refusal {
    pub fn number(self) -> u8
        ensures { result ≡ number_of self }
    {
        match self {
            Refusal::TooLong => 1,
            Refusal::UnknownKind(_) => 2,
            Refusal::CutOff(_) => 3,
            Refusal::Unlisted(_) => 4,
            Refusal::OrdersText(_) => 12,
            Refusal::OutOfOrder(_) => 5,
            Refusal::MissingNode(_) => 6,
            Refusal::Repeated(_) => 7,
            Refusal::TooMany(_) => 8,
            Refusal::Endless(_) => 9,
            Refusal::NoSpace => 10,
        }
    }

    pub fn place(self) -> usize
        ensures { result ≡ place_of self }
    {
        match self {
            Refusal::TooLong | Refusal::NoSpace => 0,
            Refusal::UnknownKind(at)
            | Refusal::CutOff(at)
            | Refusal::Unlisted(at)
            | Refusal::OrdersText(at)
            | Refusal::OutOfOrder(at)
            | Refusal::MissingNode(at)
            | Refusal::Repeated(at)
            | Refusal::TooMany(at)
            | Refusal::Endless(at) => at,
        }
    }
}
