// A settings file: nine lines, each a name and its value, in a fixed order.
ghost use Rattle.std.specs.Prelude.{◌≡◌, option_map};
ghost use Rattle.parameter_text.specs.Cuts.{lines as lines_of};
ghost use Rattle.parameter_text.specs.Left.{cells_left};
ghost use Rattle.margin_files.specs.Files.{line_at as line_at_of, cells_behind as cells_behind_of, cells_at as cells_at_of, value_at as value_at_of, one_cell};
ghost use Rattle.margin_files.specs.Settings.{amount_at as amount_at_of, hundredths_at as hundredths_at_of, ten_thousandths_at as ten_thousandths_at_of, rates_in, given_in, ipo_stocks as ipo_stocks_of, ipo_in, settings_of};

use super::numbers::{four_places, in_u32, in_u64, two_places, whole_number};
use super::terms::FormFault;
use ledger::{GivenAmounts, Settings};
use parameter_text::{Cells, Lines};

// How many IPO stocks there may be.
const MOST_IPO: usize = 16;

// A field of a settings file: the number of its line, counted from 1, and the name in front of its value.
#[derive(Clone, Copy)]
struct Field {
    line: usize,
    name: &'static [u8],
}

const MULTIPLIER: Field = Field {
    line: 1,
    name: b"Multiplier",
};

const CREDIT: Field = Field {
    line: 2,
    name: b"Credit",
};

const FLOOR_RATE: Field = Field {
    line: 3,
    name: b"Floor_Rate",
};

const LIQUIDATION: Field = Field {
    line: 4,
    name: b"Liquidation",
};

const STRUCTURED_PRODUCT: Field = Field {
    line: 5,
    name: b"Structured_Product",
};

const POSITION_LIMIT: Field = Field {
    line: 6,
    name: b"Position_Limit",
};

const CREDIT_RISK: Field = Field {
    line: 7,
    name: b"Credit_Risk",
};

const AD_HOC: Field = Field {
    line: 8,
    name: b"Ad_Hoc",
};

const IPO: Field = Field {
    line: 9,
    name: b"IPO",
};

// The first three settings.
#[derive(Clone, Copy)]
struct Rates {
    multiplier: u32,
    credit: u64,
    floor_rate: u32,
}

// The line of a number, counted from 1.
fn line_at(text: &[u8], number: usize) -> Option<&[u8]>
    ensures { option_map (λ x. x.now) result ≡ line_at_of number (lines_of text.now) }
{
    Lines::new(text).nth(number.saturating_sub(1))
}

// The cells of a line behind its name.
fn cells_behind<'a>(line: &'a [u8], name: &[u8]) -> Option<Cells<'a>>
    ensures { option_map cells_left result ≡ cells_behind_of name.now line.now }
{
    let mut cells = Cells::new(line);
    (cells.next()? == name).then_some(cells)
}

// The only cell that is left.
fn only_cell(mut cells: Cells<'_>) -> Option<&[u8]>
    ensures { option_map (λ x. x.now) result ≡ one_cell (cells_left cells.entry) }
{
    let cell = cells.next()?;
    cells.next().is_none().then_some(cell)
}

impl Field {
    // That the field's line does not have its form.
    fn fault(self) -> FormFault
        ensures { result.line ≡ self.line }
    {
        FormFault { line: self.line }
    }

    // The cells behind the name.
    #[tactic(auto, unfolding(crate::specs::Files::cells_at))]
    fn cells<'a>(self, text: &'a [u8]) -> Option<Cells<'a>>
        ensures { option_map cells_left result ≡ cells_at_of self.line self.name.now (lines_of text.now) }
    {
        cells_behind(line_at(text, self.line)?, self.name)
    }

    // The value behind the name.
    #[tactic(auto, unfolding(crate::specs::Files::value_at))]
    fn value<'a>(self, text: &'a [u8]) -> Option<&'a [u8]>
        ensures { option_map (λ x. x.now) result ≡ value_at_of self.line self.name.now (lines_of text.now) }
    {
        only_cell(self.cells(text)?)
    }

    // Kept: a generic method over the function that reads the value needs three such functions beside it, as many as these chains are.
    // The value as an amount.
    #[tactic(auto, unfolding(crate::specs::Settings::amount_at, crate::specs::Settings::read_at))]
    fn amount(self, text: &[u8]) -> Result<u64, FormFault>
        ensures { result ≡ amount_at_of self.line self.name.now (lines_of text.now) }
    {
        self.value(text)
            .and_then(whole_number)
            .map(in_u64)
            .ok_or(self.fault())
    }

    // The value, a decimal of at most two places, in hundredths.
    #[tactic(auto, unfolding(crate::specs::Settings::hundredths_at, crate::specs::Settings::read_at))]
    fn hundredths(self, text: &[u8]) -> Result<u32, FormFault>
        ensures { result ≡ hundredths_at_of self.line self.name.now (lines_of text.now) }
    {
        self.value(text)
            .and_then(two_places)
            .map(in_u32)
            .ok_or(self.fault())
    }

    // The value, a decimal of at most four places, in ten-thousandths.
    #[tactic(auto, unfolding(crate::specs::Settings::ten_thousandths_at, crate::specs::Settings::read_at))]
    fn ten_thousandths(self, text: &[u8]) -> Result<u32, FormFault>
        ensures { result ≡ ten_thousandths_at_of self.line self.name.now (lines_of text.now) }
    {
        self.value(text)
            .and_then(four_places)
            .map(in_u32)
            .ok_or(self.fault())
    }
}

// Lines 1 to 3.
#[tactic(auto, unfolding(crate::specs::Settings::rates_in))]
fn read_rates(text: &[u8]) -> Result<Rates, FormFault>
    ensures { result ≡ rates_in (lines_of text.now) }
{
    Ok(Rates {
        multiplier: MULTIPLIER.hundredths(text)?,
        credit: CREDIT.amount(text)?,
        floor_rate: FLOOR_RATE.ten_thousandths(text)?,
    })
}

// Lines 4 to 8.
#[tactic(auto, unfolding(crate::specs::Settings::given_in))]
fn read_given(text: &[u8]) -> Result<GivenAmounts, FormFault>
    ensures { result ≡ given_in (lines_of text.now) }
{
    Ok(GivenAmounts {
        liquidation: LIQUIDATION.amount(text)?,
        structured_product: STRUCTURED_PRODUCT.amount(text)?,
        position_limit: POSITION_LIMIT.amount(text)?,
        credit_risk: CREDIT_RISK.amount(text)?,
        ad_hoc: AD_HOC.amount(text)?,
    })
}

// The stocks that the cells name, and 0 for those not named.
fn ipo_stocks(cells: Cells<'_>) -> Option<[u32; 16]>
    ensures { result ≡ ipo_stocks_of (cells_left cells.entry) }
{
    let mut stocks = [0; 16];
    // One cell more shows that there are too many.
    for (place, cell) in cells.take(MOST_IPO + 1).enumerate() {
        if place == MOST_IPO {
            return None;
        }
        stocks[place] = in_u32(whole_number(cell)?);
    }
    Some(stocks)
}

// Line 9.
#[tactic(auto, unfolding(crate::specs::Settings::ipo_in))]
fn read_ipo(text: &[u8]) -> Result<[u32; 16], FormFault>
    ensures { result ≡ ipo_in (lines_of text.now) }
{
    IPO.cells(text).and_then(ipo_stocks).ok_or(IPO.fault())
}

// The settings that a file lays down, or its first line that does not have its form. A value out of its range is handed on to
// the opening of an account, which refuses it.
pub fn read_settings(text: &[u8]) -> Result<Settings, FormFault>
    ensures { result ≡ settings_of (lines_of text.now) }
{
    let rates = read_rates(text)?;
    let given = read_given(text)?;
    let ipo = read_ipo(text)?;
    if line_at(text, 10).is_some() {
        return Err(FormFault { line: 10 });
    }
    Ok(Settings {
        multiplier: rates.multiplier,
        credit: rates.credit,
        floor_rate: rates.floor_rate,
        given,
        ipo,
    })
}
