// What the check keeps of each stock.
ghost use Rattle.std.specs.Prelude.{◌≡◌, ◌≤◌, length, slice_index_or};
ghost use Rattle.file_rules.specs.Rows.{earliest};
ghost use Rattle.parameter_file.specs.Table.{no_rows, taken, noted, fault_in, place_in, right_kept};
ghost use Rattle.parameter_file.specs.Checked.{in_tier, tier_in, rights_in};

use super::terms::{Found, StockRows};
use return_source::{Entitlement, EntitlementType, ScenarioSet, Tier};

impl StockRows {
    // Has the stock a row of that kind already?
    pub(crate) fn has(&self, found: Found) -> bool
        ensures { result ≡ taken self.now found }
    {
        match found {
            Found::Returns(set) => self.returns(set).is_some(),
            Found::Rate(_) => self.rate.is_some(),
            Found::Right(kind, _) => self.right(kind).is_some(),
            Found::Unread => false,
        }
    }

    // The stock with one row more, whose returns start at a place.
    pub(crate) fn with(self, found: Found, start: usize, line: u32) -> StockRows
        ensures { result ≡ noted self found start line }
    {
        let first = self.line.or(Some(line));
        match found {
            Found::Returns(ScenarioSet::Historical) => StockRows {
                historical: Some(start),
                line: first,
                ..self
            },
            Found::Returns(ScenarioSet::Stress) => StockRows {
                stress: Some(start),
                line: first,
                ..self
            },
            Found::Rate(n) => StockRows {
                rate: Some(n),
                line: first,
                ..self
            },
            Found::Right(EntitlementType::Dsp, e) => StockRows {
                dsp: Some(e),
                ..self
            },
            Found::Right(EntitlementType::Sri, e) => StockRows {
                sri: Some(e),
                ..self
            },
            Found::Right(EntitlementType::Div, e) => StockRows {
                div: Some(e),
                ..self
            },
            Found::Unread => self,
        }
    }

    // Where the stock's returns in a set of scenarios start, if it has them.
    pub(crate) fn returns(&self, set: ScenarioSet) -> Option<usize>
        ensures { result ≡ place_in self.now set }
    {
        match set {
            ScenarioSet::Historical => self.historical,
            ScenarioSet::Stress => self.stress,
        }
    }

    // The stock's entitlement of a type, if it has one.
    pub(crate) fn right(&self, kind: EntitlementType) -> Option<Entitlement>
        ensures { result ≡ right_kept self.now kind }
    {
        match kind {
            EntitlementType::Dsp => self.dsp,
            EntitlementType::Sri => self.sri,
            EntitlementType::Div => self.div,
        }
    }

    // Both return rows, a flat rate, or neither.
    pub(crate) fn tier(&self) -> Option<Tier>
        ensures { result ≡ tier_in self.now }
    {
        if self.historical.is_some() && self.stress.is_some() {
            Some(Tier::Portfolio)
        } else if self.rate.is_some() {
            Some(Tier::Flat)
        } else {
            None
        }
    }

    // Does the stock stand in that tier?
    pub(crate) fn is_in(&self, tier: Tier) -> bool
        ensures { result ≡ in_tier tier (tier_in self.now) }
    {
        self.tier() == Some(tier)
    }

    // How many entitlements the stock has.
    pub(crate) fn rights(&self) -> u32
        ensures value { result ≡ rights_in self.now }
        ensures few { result ≤ 3 }
    {
        self.dsp.is_some() as u32 + self.sri.is_some() as u32 + self.div.is_some() as u32
    }

    // The line that the last question names for this stock, if it is at fault: it has returns in one set alone, or a flat
    // rate beside them.
    fn fault(&self) -> Option<u32>
        ensures { result ≡ fault_in self.now }
    {
        let historical = self.historical.is_some();
        let stress = self.stress.is_some();
        if (historical || stress) && (!(historical && stress) || self.rate.is_some()) {
            self.line
        } else {
            None
        }
    }
}

// The earliest line that the last question names.
pub(crate) fn earliest_fault(table: &[StockRows]) -> Option<u32>
    ensures { result ≡ earliest (λ s. fault_in (slice_index_or table.now s no_rows)) (length table.now) }
{
    table.iter().filter_map(StockRows::fault).min()
}
