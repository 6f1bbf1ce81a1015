// Kinds and their numbers.
ghost use Rattle.std.specs.Prelude.{◌≡◌};
ghost use Rattle.ledger.specs.Kinds.{kind_number, kind_or_refusal, same_instrument};

use super::terms::{EntryRefusal, Instrument, Kind};

impl Kind {
    // The number of the kind, 0 to 3.
    pub fn number(self) -> u32
        ensures { result ≡ kind_number self }
    {
        match self {
            Kind::Stock => 0,
            Kind::Dsp => 1,
            Kind::Sri => 2,
            Kind::Div => 3,
        }
    }
}

// The kind of a number, if it is one's.
impl TryFrom<u32> for Kind {
    type Error = EntryRefusal;

    ghost try_from_gives = { λ number kind. kind ≡ kind_or_refusal number };

    fn try_from(number: u32) -> Result<Kind, EntryRefusal> {
        match number {
            0 => Ok(Kind::Stock),
            1 => Ok(Kind::Dsp),
            2 => Ok(Kind::Sri),
            3 => Ok(Kind::Div),
            _ => Err(EntryRefusal::Instrument),
        }
    }
}

impl Instrument {
    // Are two instruments one?
    // Kept: a method around the derived `==`, whose contract says by kind and stock which instruments a position takes for one.
    pub fn is(self, other: Instrument) -> bool
        ensures { result ≡ same_instrument self other }
    {
        self == other
    }
}
