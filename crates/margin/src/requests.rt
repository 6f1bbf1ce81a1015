// What is asked of an account in its day, and why a whole day is refused.
ghost use Rattle.std.specs.Prelude.{◌≡◌};
ghost use Rattle.margin.specs.DayNumbers.{day_refusal_number};
ghost use Rattle.margin.specs.declared.requests.DayRefusal.TheVariants.{Opening, Assessing};

use ledger::{OpeningRefusal, Posting};
use margin_rules::AssessmentRefusal;

// A call upon an open account.
#[derive(Clone, Copy, PartialEq, Eq)]
pub enum Request {
    Post(Posting),
    Cancel(u32),
    Assess,
}

// Why a day is refused: the account is not opened, or its last assessment is refused.
#[derive(Clone, Copy, PartialEq, Eq)]
pub enum DayRefusal {
    Opening(OpeningRefusal),
    Assessing(AssessmentRefusal),
}

impl From<OpeningRefusal> for DayRefusal {
    ghost from_gives = { λ opening day. day ≡ Opening opening };

    fn from(opening: OpeningRefusal) -> DayRefusal {
        DayRefusal::Opening(opening)
    }
}

impl From<AssessmentRefusal> for DayRefusal {
    ghost from_gives = { λ assessing day. day ≡ Assessing assessing };

    fn from(assessing: AssessmentRefusal) -> DayRefusal {
        DayRefusal::Assessing(assessing)
    }
}

impl DayRefusal {
    // The number that the refusal carries.
    pub fn number(self) -> u32
        ensures { result ≡ day_refusal_number self }
    {
        match self {
            DayRefusal::Opening(refusal) => refusal.number(),
            DayRefusal::Assessing(refusal) => refusal.number(),
        }
    }
}
