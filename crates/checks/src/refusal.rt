// Refusals: why a call is refused, the number that it then carries, and the place.
ghost use Rattle.std.specs.Prelude.{◌≡◌};
ghost use Rattle.checks.specs.Refusals.{number_of, place_of};

use std::fmt;

// Why a call is refused, in the order of the numbers: 1 to 13.
#[derive(Clone, Copy, Debug, PartialEq, Eq)]
pub enum Refusal {
    // Length not whole records; key, write or report of another length than its own.
    Ragged,
    // Over 1,024 rules or 4,096 trace records.
    TooMany,
    // Nonzero spare byte, or value bit under a wildcard: `place` is the first such record of a policy or a trace, and 0 for a message.
    BadRecord { place: usize },
    // Slot buffer not 40 times 1 to 256.
    BadSlots,
    // Output shorter than the answer.
    ShortOutput,
    // Rule number not below the rule count.
    NoSuchRule,
    // Rule is not the key's best.
    NotBest,
    // Wrong kind byte.
    WrongKind,
    // Slot not below the slot count.
    NoSuchSlot,
    // Sequence 0.
    SequenceZero,
    // Report's sequence larger than the keeper's in that slot.
    ReportAhead,
    // Table and keeper lengths differ.
    LengthsDiffer,
    // Some total above the limit before a run.
    TotalsFull,
}

impl Refusal {
    // The number that a refused call carries.
    pub fn number(self) -> u32
        ensures { result ≡ number_of self }
    {
        match self {
            Refusal::Ragged => 1,
            Refusal::TooMany => 2,
            Refusal::BadRecord { .. } => 3,
            Refusal::BadSlots => 4,
            Refusal::ShortOutput => 5,
            Refusal::NoSuchRule => 6,
            Refusal::NotBest => 7,
            Refusal::WrongKind => 8,
            Refusal::NoSuchSlot => 9,
            Refusal::SequenceZero => 10,
            Refusal::ReportAhead => 11,
            Refusal::LengthsDiffer => 12,
            Refusal::TotalsFull => 13,
        }
    }

    // The place that it carries: the first record with a flaw, and 0 in every other case.
    pub fn place(self) -> usize
        ensures { result ≡ place_of self }
    {
        match self {
            Refusal::BadRecord { place } => place,
            _ => 0,
        }
    }
}

impl fmt::Display for Refusal {
    fn fmt<W: fmt::Write>(&self, f: &mut fmt::Formatter<W>) -> fmt::Result {
        let number = self.number();
        let place = self.place();
        write!(f, "refused {number} {place}")
    }
}
