// What a check found, for scripts.
ghost use Rattle.std.specs.Prelude.{Some};
ghost use Rattle.desk.specs.Csv.{fault_line, scenario_lines, stock_lines, summary_lines};

use figures::{Decimal, IsoDate};
use parameter_file::Summary;
use parameter_heading::Fault;
use return_source::Parameters;
use std::fmt;

// What a file that passes holds, a name and a value on each line.
#[derive(Clone, Copy)]
pub struct CsvSummary<'a>(pub &'a Summary);

impl fmt::Display for CsvSummary<'_> {
    ghost output = { λ x. Some (summary_lines x.0.now) };

    fn fmt<W: fmt::Write>(&self, f: &mut fmt::Formatter<W>) -> fmt::Result {
        let date = IsoDate(&self.0.heading.date);
        let parameters = &self.0.heading.parameters;
        let scenarios = CsvScenarios(parameters);
        let step = parameters.step;
        let factor = Decimal::<10>(parameters.holiday_factor);
        let stocks = CsvStocks(self.0);
        write!(
            f,
            "checked\n\
             valuation_date,{date}\n\
             {scenarios}\n\
             step,{step}\n\
             holiday_factor,{factor}\n\
             {stocks}"
        )
    }
}

#[derive(Clone, Copy)]
struct CsvScenarios<'a>(&'a Parameters);

impl fmt::Display for CsvScenarios<'_> {
    ghost output = { λ x. Some (scenario_lines x.0.now) };

    fn fmt<W: fmt::Write>(&self, f: &mut fmt::Formatter<W>) -> fmt::Result {
        let historical = &self.0.historical;
        let stress = &self.0.stress;
        let historical_weight = Decimal::<4>(u64::from(historical.weight.ten_thousandths));
        let stress_weight = Decimal::<4>(u64::from(stress.weight.ten_thousandths));
        let historical_count = historical.count;
        let stress_count = stress.count;
        let historical_tail = historical.tail;
        let stress_tail = stress.tail;
        write!(
            f,
            "hvar_weight,{historical_weight}\n\
             svar_weight,{stress_weight}\n\
             hvar_scenarios,{historical_count}\n\
             svar_scenarios,{stress_count}\n\
             hvar_tail,{historical_tail}\n\
             svar_tail,{stress_tail}"
        )
    }
}

#[derive(Clone, Copy)]
struct CsvStocks<'a>(&'a Summary);

impl fmt::Display for CsvStocks<'_> {
    ghost output = { λ x. Some (stock_lines x.0.now) };

    fn fmt<W: fmt::Write>(&self, f: &mut fmt::Formatter<W>) -> fmt::Result {
        let portfolio = self.0.portfolio_stocks;
        let flat = self.0.flat_stocks;
        let entitlements = self.0.entitlements;
        write!(
            f,
            "portfolio_stocks,{portfolio}\n\
             flat_stocks,{flat}\n\
             entitlements,{entitlements}"
        )
    }
}

// Why a file is refused: the question's number and the line.
#[derive(Clone, Copy)]
pub struct CsvFault<'a>(pub &'a Fault);

impl fmt::Display for CsvFault<'_> {
    ghost output = { λ x. Some (fault_line x.0.now) };

    fn fmt<W: fmt::Write>(&self, f: &mut fmt::Formatter<W>) -> fmt::Result {
        let question = self.0.question.number();
        let line = self.0.line;
        write!(f, "refused,{question},{line}")
    }
}
