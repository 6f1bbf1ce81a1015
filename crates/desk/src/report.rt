// What a check found, for people.
ghost use Rattle.std.specs.Prelude.{◌≡◌, Some};
ghost use Rattle.desk.specs.Reports.{fault_report, meaning as meaning_of, scenario_rows, stock_rows, summary_report};

use figures::{Column, CountCell, Decimal, IsoDate};
use parameter_file::Summary;
use parameter_heading::Fault;
use parameter_text::Question;
use return_source::Parameters;
use std::fmt;

// Wide enough for ten places.
const WIDTH: usize = 14;

// What a file that passes holds, in aligned columns.
#[derive(Clone, Copy)]
pub struct SummaryReport<'a>(pub &'a Summary);

impl fmt::Display for SummaryReport<'_> {
    ghost output = { λ x. Some (summary_report x.0.now) };

    fn fmt<W: fmt::Write>(&self, f: &mut fmt::Formatter<W>) -> fmt::Result {
        let date = Column {
            width: WIDTH,
            value: IsoDate(&self.0.heading.date),
        };
        let parameters = &self.0.heading.parameters;
        let scenarios = ScenarioRows(parameters);
        let step = CountCell(parameters.step);
        let factor = Column {
            width: WIDTH,
            value: Decimal::<10>(parameters.holiday_factor),
        };
        let stocks = StockRows(self.0);
        write!(
            f,
            "The file passes.\n\
             \n\
             Valuation date    {date}\n\
             \n\
             {scenarios}\n\
             \n\
             Step in dollars   {step}\n\
             Holiday factor    {factor}\n\
             \n\
             {stocks}"
        )
    }
}

#[derive(Clone, Copy)]
struct ScenarioRows<'a>(&'a Parameters);

impl fmt::Display for ScenarioRows<'_> {
    ghost output = { λ x. Some (scenario_rows x.0.now) };

    fn fmt<W: fmt::Write>(&self, f: &mut fmt::Formatter<W>) -> fmt::Result {
        let historical = &self.0.historical;
        let stress = &self.0.stress;
        let historical_weight = Column {
            width: WIDTH,
            value: Decimal::<4>(u64::from(historical.weight.ten_thousandths)),
        };
        let stress_weight = Column {
            width: WIDTH,
            value: Decimal::<4>(u64::from(stress.weight.ten_thousandths)),
        };
        let historical_count = CountCell(historical.count);
        let stress_count = CountCell(stress.count);
        let historical_tail = CountCell(historical.tail);
        let stress_tail = CountCell(stress.tail);
        write!(
            f,
            "                      historical        stress\n\
             Weight            {historical_weight}{stress_weight}\n\
             Scenarios         {historical_count}{stress_count}\n\
             Tail              {historical_tail}{stress_tail}"
        )
    }
}

#[derive(Clone, Copy)]
struct StockRows<'a>(&'a Summary);

impl fmt::Display for StockRows<'_> {
    ghost output = { λ x. Some (stock_rows x.0.now) };

    fn fmt<W: fmt::Write>(&self, f: &mut fmt::Formatter<W>) -> fmt::Result {
        let portfolio = CountCell(self.0.portfolio_stocks);
        let flat = CountCell(self.0.flat_stocks);
        let entitlements = CountCell(self.0.entitlements);
        write!(
            f,
            "Portfolio stocks  {portfolio}\n\
             Flat-rate stocks  {flat}\n\
             Entitlements      {entitlements}"
        )
    }
}

// Why a file is refused: the question, the line, and what a no means.
#[derive(Clone, Copy)]
pub struct FaultReport<'a>(pub &'a Fault);

impl fmt::Display for FaultReport<'_> {
    ghost output = { λ x. Some (fault_report x.0.now) };

    fn fmt<W: fmt::Write>(&self, f: &mut fmt::Formatter<W>) -> fmt::Result {
        let question = self.0.question.number();
        let line = self.0.line;
        let meaning = meaning(self.0.question);
        write!(f, "question {question}, line {line}: {meaning}")
    }
}

// What it means that a question is answered no.
// Kept: the enum is another crate's, so no impl of Display can be its own, and a type around it would serve one call.
fn meaning(question: Question) -> &'static str
    ensures { result.now ≡ meaning_of question }
{
    match question {
        Question::Length => "the file is empty or longer than 67,108,864 bytes",
        Question::Presence => "one of the first 13 lines is missing",
        Question::Name => "the line does not have the name or the column names it must have",
        Question::Cells => "a cell is missing, or there is one too many",
        Question::Form => "a cell does not have the form of its value",
        Question::Range => "a value is out of range or has too many places",
        Question::First => "the stock already has such a row",
        Question::Tier => "the stock's rows of returns and of a flat rate do not stand together",
    }
}
