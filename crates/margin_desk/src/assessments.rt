// The figures of an assessment, and the list of the greatest holdings.
ghost use Rattle.std.specs.Prelude.{◌≡◌, Some};
ghost use Rattle.std.specs.Fmt.{WritesOnOk};
ghost use Rattle.margin_desk.specs.Assessments.{amount_cell, stock_cell, margin_lines, payment_lines, margin_rows, payment_rows, figures_text, kind_name, holding_text, holdings_text, assessment_text};

use figures::{Column, CountCell, Dollars, Form, Numeral};
use ledger::Kind;
use margin_rules::{Assessment, Holding};
use std::fmt;

// The margins of an assessment, for scripts.
#[derive(Clone, Copy)]
struct MarginLines<'a>(&'a Assessment);

impl fmt::Display for MarginLines<'_> {
    ghost output = { λ x. Some (margin_lines x.0.now) };

    fn fmt<W: fmt::Write>(&self, f: &mut fmt::Formatter<W>) -> fmt::Result {
        let portfolio = &self.0.portfolio;
        let flat_rate = &self.0.flat_rate;
        let corporate_action = &self.0.corporate_action;
        let holiday = &self.0.holiday;
        let aggregate = &self.0.aggregate;
        let rounded = &self.0.rounded;
        write!(
            f,
            "portfolio,{portfolio}\n\
             flat_rate,{flat_rate}\n\
             corporate_action,{corporate_action}\n\
             holiday,{holiday}\n\
             aggregate,{aggregate}\n\
             rounded,{rounded}"
        )
    }
}

// What is to be paid of them, for scripts.
#[derive(Clone, Copy)]
struct PaymentLines<'a>(&'a Assessment);

impl fmt::Display for PaymentLines<'_> {
    ghost output = { λ x. Some (payment_lines x.0.now) };

    fn fmt<W: fmt::Write>(&self, f: &mut fmt::Formatter<W>) -> fmt::Result {
        let favourable = &self.0.favourable;
        let requirement = &self.0.requirement;
        let net = &self.0.net;
        let credited = &self.0.credited;
        let total = &self.0.total;
        let positions = self.0.positions;
        write!(
            f,
            "favourable,{favourable}\n\
             requirement,{requirement}\n\
             net,{net}\n\
             credited,{credited}\n\
             total,{total}\n\
             positions,{positions}"
        )
    }
}

// An amount at the right of its column.
// Kept: the eleven amounts need no width at each, and the definition of a cell stays closed in the proofs of the rows.
#[derive(Clone, Copy)]
struct AmountCell<'a>(&'a i64);

impl fmt::Display for AmountCell<'_> {
    ghost output = { λ x. Some (amount_cell x.0.now) };

    #[tactic(auto, unfolding(crate::specs::Assessments::amount_cell))]
    fn fmt<W: fmt::Write>(&self, f: &mut fmt::Formatter<W>) -> fmt::Result {
        let cell = Column {
            width: WIDTH,
            value: Dollars(*self.0),
        };
        write!(f, "{cell}")
    }
}

// Wide enough for the largest amounts.
const WIDTH: usize = 20;

// The margins of an assessment, for people.
#[derive(Clone, Copy)]
struct MarginRows<'a>(&'a Assessment);

impl fmt::Display for MarginRows<'_> {
    ghost output = { λ x. Some (margin_rows x.0.now) };

    fn fmt<W: fmt::Write>(&self, f: &mut fmt::Formatter<W>) -> fmt::Result {
        let portfolio = AmountCell(&self.0.portfolio);
        let flat_rate = AmountCell(&self.0.flat_rate);
        let corporate_action = AmountCell(&self.0.corporate_action);
        let holiday = AmountCell(&self.0.holiday);
        let aggregate = AmountCell(&self.0.aggregate);
        let rounded = AmountCell(&self.0.rounded);
        write!(
            f,
            "Portfolio margin         {portfolio}\n\
             Flat-rate margin         {flat_rate}\n\
             Corporate-action margin  {corporate_action}\n\
             Holiday margin           {holiday}\n\
             Aggregate                {aggregate}\n\
             Rounded up to the step   {rounded}"
        )
    }
}

// What is to be paid of them, for people.
#[derive(Clone, Copy)]
struct PaymentRows<'a>(&'a Assessment);

impl fmt::Display for PaymentRows<'_> {
    ghost output = { λ x. Some (payment_rows x.0.now) };

    fn fmt<W: fmt::Write>(&self, f: &mut fmt::Formatter<W>) -> fmt::Result {
        let favourable = AmountCell(&self.0.favourable);
        let requirement = AmountCell(&self.0.requirement);
        let net = AmountCell(&self.0.net);
        let credited = AmountCell(&self.0.credited);
        let total = AmountCell(&self.0.total);
        let positions = CountCell(self.0.positions);
        write!(
            f,
            "Favourable mark          {favourable}\n\
             Mark requirement         {requirement}\n\
             Net                      {net}\n\
             After the credit         {credited}\n\
             Total                    {total}\n\
             Portfolio positions            {positions}"
        )
    }
}

// All figures of an assessment.
#[derive(Clone, Copy)]
struct Figures<'a> {
    figures: &'a Assessment,
    form: Form,
}

impl fmt::Display for Figures<'_> {
    ghost output = { λ x. Some (figures_text x.form x.figures.now) };

    fn fmt<W: fmt::Write>(&self, f: &mut fmt::Formatter<W>) -> fmt::Result {
        match self.form {
            Form::Csv => {
                let margins = MarginLines(self.figures);
                let payment = PaymentLines(self.figures);
                write!(f, "{margins}\n{payment}")
            }
            Form::Report => {
                let margins = MarginRows(self.figures);
                let payment = PaymentRows(self.figures);
                write!(
                    f,
                    "{margins}\n\n{payment}\n\nHolding             Stock        Market value"
                )
            }
        }
    }
}

// The name of a kind, as wide as its column.
// Kept: the enum is another crate's, so no impl of Display can be its own, and a type around it would serve one call.
fn kind_name(kind: Kind) -> &'static str
    ensures { result.now ≡ kind_name kind }
{
    match kind {
        Kind::Stock => "stock          ",
        Kind::Dsp => "DSP entitlement",
        Kind::Sri => "SRI entitlement",
        Kind::Div => "DIV entitlement",
    }
}

// A place of the list of holdings; for people a spare one is left out.
#[derive(Clone, Copy)]
struct HoldingText<'a> {
    holding: &'a Holding,
    form: Form,
}

impl fmt::Display for HoldingText<'_> {
    ghost output = { λ x. Some (holding_text x.form x.holding.now) };

    fn fmt<W: fmt::Write>(&self, f: &mut fmt::Formatter<W>) -> fmt::Result {
        let market_value = &self.holding.market_value;
        match self.form {
            Form::Csv => {
                let kind = self.holding.kind.number();
                let stock = self.holding.stock;
                write!(f, "\nholding,{kind},{stock},{market_value}")
            }
            Form::Report => {
                if self.holding.stock == 0 {
                    return Ok(());
                }
                let kind = kind_name(self.holding.kind);
                let stock = StockCell(self.holding.stock);
                let amount = AmountCell(market_value);
                write!(f, "\n{kind}{stock}{amount}")
            }
        }
    }
}

// A stock at the right of its column.
#[derive(Clone, Copy)]
struct StockCell(u32);

impl fmt::Display for StockCell {
    ghost output = { λ x. Some (stock_cell x.0) };

    #[tactic(auto, unfolding(crate::specs::Assessments::stock_cell))]
    fn fmt<W: fmt::Write>(&self, f: &mut fmt::Formatter<W>) -> fmt::Result {
        let cell = Column {
            width: STOCK_WIDTH,
            value: Numeral(self.0),
        };
        write!(f, "{cell}")
    }
}

const STOCK_WIDTH: usize = 10;

fn put_holdings<W: fmt::Write>(
    f: &mut fmt::Formatter<W>,
    holdings: &[Holding],
    form: Form,
) -> fmt::Result
    ensures { WritesOnOk W.write_str_gives f.old result (holdings_text form holdings.now) f.new }
{
    match holdings {
        [] => Ok(()),
        [first, others @ ..] => {
            let text = HoldingText {
                holding: first,
                form,
            };
            write!(f, "{text}")?;
            put_holdings(f, others, form)
        }
    }
}

// The list of holdings.
#[derive(Clone, Copy)]
struct Holdings<'a> {
    holdings: &'a [Holding],
    form: Form,
}

impl fmt::Display for Holdings<'_> {
    ghost output = { λ x. Some (holdings_text x.form x.holdings.now) };

    fn fmt<W: fmt::Write>(&self, f: &mut fmt::Formatter<W>) -> fmt::Result {
        put_holdings(f, self.holdings, self.form)
    }
}

// An assessment: its figures, and then the list of holdings.
#[derive(Clone, Copy)]
pub struct AssessmentText<'a> {
    pub figures: &'a Assessment,
    pub holdings: &'a [Holding],
    pub form: Form,
}

impl fmt::Display for AssessmentText<'_> {
    ghost output = { λ x. Some (assessment_text x.form x.figures.now x.holdings.now) };

    fn fmt<W: fmt::Write>(&self, f: &mut fmt::Formatter<W>) -> fmt::Result {
        let figures = Figures {
            figures: self.figures,
            form: self.form,
        };
        let holdings = Holdings {
            holdings: self.holdings,
            form: self.form,
        };
        write!(f, "{figures}{holdings}")
    }
}
