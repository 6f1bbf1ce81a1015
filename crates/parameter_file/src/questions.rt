// What a checked file says, found by its index.
ghost use Rattle.std.specs.Prelude.{◌≡◌, slice_index_or};
ghost use Rattle.std.specs.Option.{option_map};
ghost use Rattle.return_source.specs.Meaning.{tier_of};
ghost use Rattle.file_rules.specs.Judged.{verdict};
ghost use Rattle.parameter_file.specs.Checked.{meaning_of, rows_in};
ghost use Rattle.parameter_file.specs.Table.{no_rows, Says};

use super::file::{CheckedFile, Memory};
use super::terms::StockRows;
use return_source::{Entitlement, EntitlementType, Parameters, ScenarioSet, Tier};

impl Memory {
    // What is kept of a stock: nothing of a number that has no place.
    fn rows_of(&self, stock: u32) -> StockRows
        ensures { result ≡ slice_index_or self.now.table.items stock no_rows }
    {
        self.table.get(stock as usize).copied().unwrap_or_default()
    }
}

impl<'a> CheckedFile<'a> {
    // What is kept of a stock.
    fn rows_of(&self, stock: u32) -> StockRows
        ensures { Says self.now.heading.parameters self.now.memory.kept.items (rows_in (verdict self.now.bytes.now)) stock result }
    {
        self.memory.rows_of(stock)
    }

    // The parameters.
    pub fn parameters(&self) -> Parameters
        ensures { result ≡ (meaning_of self.now.bytes.now self.now.heading).parameters }
    {
        let all = self.heading;
        all.parameters
    }

    // The flat rate of a stock, in ten-thousandths, if it has one.
    pub fn flat_rate(&self, stock: u32) -> Option<u32>
        ensures { result ≡ (meaning_of self.now.bytes.now self.now.heading).rate stock }
    {
        self.rows_of(stock).rate
    }

    fn right_of(&self, kind: EntitlementType, stock: u32) -> Option<Entitlement>
        ensures { result ≡ (meaning_of self.now.bytes.now self.now.heading).entitlement kind stock }
    {
        self.rows_of(stock).right(kind)
    }

    // The entitlement of a stock and type, if there is one.
    pub fn entitlement(&self, kind: EntitlementType, stock: u32) -> Option<Entitlement>
        ensures { result ≡ (meaning_of self.now.bytes.now self.now.heading).entitlement kind stock }
    {
        self.right_of(kind, stock)
    }

    fn row_of(&self, set: ScenarioSet, stock: u32) -> Option<&[i32]>
        ensures { option_map (λ x. x.now) result ≡ (meaning_of self.now.bytes.now self.now.heading).returns set stock }
    {
        let start = self.rows_of(stock).returns(set)?;
        let n = self.heading.parameters.scenarios(set).count as usize;
        let kept = self.memory.kept.as_slice();
        Some(&kept[start..start + n])
    }

    // The returns of a stock in a set of scenarios, in hundred-millionths, if it has them.
    pub fn returns(&self, set: ScenarioSet, stock: u32) -> Option<&[i32]>
        ensures { option_map (λ x. x.now) result ≡ (meaning_of self.now.bytes.now self.now.heading).returns set stock }
    {
        self.row_of(set, stock)
    }

    // The tier of a stock, if it has one.
    pub fn tier(&self, stock: u32) -> Option<Tier>
        ensures { result ≡ tier_of (meaning_of self.now.bytes.now self.now.heading) stock }
    {
        self.rows_of(stock).tier()
    }
}
