// The questions asked when an account is opened.
ghost use Rattle.std.specs.Prelude.{◌≡◌};
ghost use Rattle.ledger.specs.Settings.{given_in_range, rates_in_range, ipo_in_range, settings_in_range, is_ipo, opening_answer};

use super::terms::{GivenAmounts, OpeningRefusal, Settings};

// The most places that a table may have.
pub const MOST_PLACES: usize = 4096;

const MOST_GIVEN: u64 = 1_000_000_000_000;

const MOST_CREDIT: u64 = 1_000_000_000;

const MOST_STOCK: u32 = 99_999;

impl GivenAmounts {
    // Is each amount at most 10^12?
    pub fn are_in_range(&self) -> bool
        ensures { result ≡ given_in_range self.now }
    {
        self.liquidation <= MOST_GIVEN
            && self.structured_product <= MOST_GIVEN
            && self.position_limit <= MOST_GIVEN
            && self.credit_risk <= MOST_GIVEN
            && self.ad_hoc <= MOST_GIVEN
    }
}

impl Settings {
    // Are the multiplier, the credit and the floor rate in their ranges?
    fn has_rates_in_range(&self) -> bool
        ensures { result ≡ rates_in_range self.now }
    {
        (100..=400).contains(&self.multiplier)
            && self.credit <= MOST_CREDIT
            && self.floor_rate <= 10_000
    }

    // Is each IPO stock one, or none?
    fn has_ipo_in_range(&self) -> bool
        ensures { result ≡ ipo_in_range self.now }
    {
        self.ipo.iter().all(|stock| *stock <= MOST_STOCK)
    }

    // Is every setting in its range?
    pub fn are_in_range(&self) -> bool
        ensures { result ≡ settings_in_range self.now }
    {
        self.has_rates_in_range() && self.given.are_in_range() && self.has_ipo_in_range()
    }

    // Is a stock one of the IPO stocks?
    pub fn is_ipo(&self, stock: u32) -> bool
        ensures { result ≡ is_ipo self.now stock }
    {
        self.ipo.iter().any(|ipo| *ipo == stock)
    }
}

// May an account be opened over a table of that many places? First the table is asked, then the settings.
pub fn check_opening(places: usize, settings: &Settings) -> Result<(), OpeningRefusal>
    ensures { result ≡ opening_answer places settings.now }
{
    if !(1..=MOST_PLACES).contains(&places) {
        return Err(OpeningRefusal::Table);
    }
    if !settings.are_in_range() {
        return Err(OpeningRefusal::Settings);
    }
    Ok(())
}
