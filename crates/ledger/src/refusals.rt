// The numbers that refusals carry.
ghost use Rattle.std.specs.Prelude.{◌≡◌};
ghost use Rattle.ledger.specs.Refusals.{opening_number, entry_refusal_number};

use super::terms::{EntryRefusal, OpeningRefusal};

impl OpeningRefusal {
    // The number that the refusal carries.
    // Kept: one match under one definition, since a number that leaves the product stands in one place.
    pub fn number(self) -> u32
        ensures { result ≡ opening_number self }
    {
        match self {
            OpeningRefusal::Table => 11,
            OpeningRefusal::Settings => 12,
        }
    }
}

impl EntryRefusal {
    // The number that the refusal carries.
    // Kept: one match under one definition, since a number that leaves the product stands in one place.
    pub fn number(self) -> u32
        ensures { result ≡ entry_refusal_number self }
    {
        match self {
            EntryRefusal::Number => 21,
            EntryRefusal::Instrument => 22,
            EntryRefusal::Size => 23,
            EntryRefusal::Cancelled => 24,
            EntryRefusal::Posted => 25,
            EntryRefusal::Full => 26,
        }
    }
}
