// The rules of an assessment: what each figure of a margin requirement is, and the laws that they keep.
#![tactic(auto)]

ghost use Rattle.std.specs.Prelude.{◌≡◌};
ghost use Rattle.margin_rules.specs.Answers.{assessment_refusal_number};
ghost use Rattle.margin_rules.specs.Laws.{AccountLaws};
ghost use Rattle.margin_rules.specs.Figures.{WorkedFigures};

mod orders;
mod terms;

pub use terms::{Assessment, AssessmentRefusal, Holding, Outcome, Room};

impl AssessmentRefusal {
    // The number that the refusal carries.
    // Kept: one match under one definition, since a number that leaves the product stands in one place.
    pub fn number(self) -> u32
        ensures { result ≡ assessment_refusal_number self }
    {
        match self {
            AssessmentRefusal::Sheets => 30,
            AssessmentRefusal::Uncovered { kind: _, stock: _ } => 31,
            AssessmentRefusal::GrossMarketValue => 32,
            AssessmentRefusal::Margin => 33,
        }
    }
}

// The laws of an account, and figures worked out by hand, over these definitions.
pub fn account_laws()
    ensures laws { AccountLaws }
    ensures figures { WorkedFigures }
{}
