// What is said of refused calls.
ghost use Rattle.std.specs.Prelude.{◌≡◌, Some};
ghost use Rattle.margin_desk.specs.Refusals.{rate_meaning, opening_meaning, entry_meaning, lacking_of, assessment_line, assessment_report, refused_line, refused_report};

use fallback_source::RateRefusal;
use ledger::{EntryRefusal, Kind, OpeningRefusal};
use margin_rules::AssessmentRefusal;
use std::fmt;

// A whole call that is refused.
// Kept: each case is made at one place and named there, where an impl From and `into()` would say less.
#[derive(Clone, Copy)]
pub enum Refused {
    Rate(RateRefusal),
    Opening(OpeningRefusal),
    Assessment(AssessmentRefusal),
}

// Kept: the enums here and below are other crates', so no impl of Display can be theirs, and a type around each would serve one call.
fn rate_meaning(refusal: RateRefusal) -> &'static str
    ensures { result.now ≡ rate_meaning refusal }
{
    match refusal {
        RateRefusal::Rate => "the rate is not 0.06 to 1",
    }
}

fn opening_meaning(refusal: OpeningRefusal) -> &'static str
    ensures { result.now ≡ opening_meaning refusal }
{
    match refusal {
        OpeningRefusal::Table => "the table has no place, or more than 4,096",
        OpeningRefusal::Settings => "a setting is out of range",
    }
}

// Why a post or a cancel is refused.
pub(crate) fn entry_meaning(refusal: EntryRefusal) -> &'static str
    ensures { result.now ≡ entry_meaning refusal }
{
    match refusal {
        EntryRefusal::Number => "the number is not 1 to 999,999,999",
        EntryRefusal::Instrument => "the kind is not 0 to 3, or the stock not 1 to 99,999",
        EntryRefusal::Size => "a size is above 20,000,000,000",
        EntryRefusal::Cancelled => "the number is already cancelled",
        EntryRefusal::Posted => "the number is already posted",
        EntryRefusal::Full => "the table has no free place",
    }
}

// What a live instrument lacks.
fn lacking(kind: Kind) -> &'static str
    ensures { result.now ≡ lacking_of kind }
{
    match kind {
        Kind::Stock => "tier",
        Kind::Dsp => "DSP entitlement",
        Kind::Sri => "SRI entitlement",
        Kind::Div => "DIV entitlement",
    }
}

// A refused assessment, for scripts.
#[derive(Clone, Copy)]
struct AssessmentLine(AssessmentRefusal);

impl fmt::Display for AssessmentLine {
    ghost output = { λ x. Some (assessment_line x.0) };

    fn fmt<W: fmt::Write>(&self, f: &mut fmt::Formatter<W>) -> fmt::Result {
        let question = self.0.number();
        match self.0 {
            AssessmentRefusal::Uncovered { kind, stock } => {
                let kind = kind.number();
                write!(f, "refused,{question},{kind},{stock}")
            }
            _ => write!(f, "refused,{question}"),
        }
    }
}

// A refused assessment, for people.
#[derive(Clone, Copy)]
struct AssessmentReport(AssessmentRefusal);

impl fmt::Display for AssessmentReport {
    ghost output = { λ x. Some (assessment_report x.0) };

    fn fmt<W: fmt::Write>(&self, f: &mut fmt::Formatter<W>) -> fmt::Result {
        match self.0 {
            AssessmentRefusal::Sheets => write!(
                f,
                "question 30: a sheet is too short, or the list of holdings has more than 64 places"
            ),
            AssessmentRefusal::Uncovered { kind, stock } => {
                let lacking = lacking(kind);
                write!(f, "question 31: stock {stock} has no {lacking}")
            }
            AssessmentRefusal::GrossMarketValue => {
                write!(f, "question 32: gross market value is above 20,000,000,000")
            }
            AssessmentRefusal::Margin => write!(
                f,
                "question 33: portfolio and flat-rate margin together are above 900,000,000"
            ),
        }
    }
}

// A refused call, for scripts.
#[derive(Clone, Copy)]
pub struct CsvRefused(pub Refused);

impl fmt::Display for CsvRefused {
    ghost output = { λ x. Some (refused_line x.0) };

    fn fmt<W: fmt::Write>(&self, f: &mut fmt::Formatter<W>) -> fmt::Result {
        match self.0 {
            Refused::Rate(refusal) => {
                let question = refusal.number();
                write!(f, "refused,{question}")
            }
            Refused::Opening(refusal) => {
                let question = refusal.number();
                write!(f, "refused,{question}")
            }
            Refused::Assessment(refusal) => {
                let line = AssessmentLine(refusal);
                write!(f, "{line}")
            }
        }
    }
}

// A refused call, for people.
#[derive(Clone, Copy)]
pub struct RefusedReport(pub Refused);

impl fmt::Display for RefusedReport {
    ghost output = { λ x. Some (refused_report x.0) };

    fn fmt<W: fmt::Write>(&self, f: &mut fmt::Formatter<W>) -> fmt::Result {
        match self.0 {
            Refused::Rate(refusal) => {
                let question = refusal.number();
                let meaning = rate_meaning(refusal);
                write!(f, "question {question}: {meaning}")
            }
            Refused::Opening(refusal) => {
                let question = refusal.number();
                let meaning = opening_meaning(refusal);
                write!(f, "question {question}: {meaning}")
            }
            Refused::Assessment(refusal) => {
                let report = AssessmentReport(refusal);
                write!(f, "{report}")
            }
        }
    }
}
