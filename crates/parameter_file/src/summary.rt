// A checked file in numbers, and the examination of a file from its bytes.
ghost use Rattle.std.specs.Prelude.{◌≡◌, ◌+◌, ◌≤◌, length, Ok, slice_index_or};
ghost use Rattle.return_source.specs.declared.terms.Tier.TheVariants.{Portfolio, Flat};
ghost use Rattle.file_rules.specs.Judged.{stock_places, verdict};
ghost use Rattle.parameter_file.specs.Table.{no_rows};
ghost use Rattle.file_rules.specs.Laid.{FilesPass};
ghost use Rattle.parameter_file.specs.Checked.{file_of, tally, yes, in_tier, tier_in, rights_in, summary as summary_of, summarised, Examined};

use super::file::{CheckedFile, Memory, Received};
use super::terms::{Refusal, StockRows, Summary};
use parameter_heading::Heading;
use return_source::Tier;
use std::alloc::Global;

// A file in numbers, by its heading and the table of its stocks.
fn counted(heading: Heading, table: &[StockRows]) -> Summary
    requires { length table.now ≤ stock_places }
    ensures heading { result.heading ≡ heading }
    ensures portfolio { result.portfolio_stocks ≡ tally (λ s. yes (in_tier Portfolio (tier_in (slice_index_or table.now s no_rows)))) (length table.now) }
    ensures flat { result.flat_stocks ≡ tally (λ s. yes (in_tier Flat (tier_in (slice_index_or table.now s no_rows)))) (length table.now) }
    ensures rights { result.entitlements ≡ tally (λ s. rights_in (slice_index_or table.now s no_rows)) (length table.now) }
{
    let mut portfolio_stocks = 0u32;
    let mut flat_stocks = 0u32;
    let mut entitlements = 0u32;
    // Kept: one pass over the table finds all three numbers, and a chain for each would be three passes.
    for rows in table {
        portfolio_stocks += rows.is_in(Tier::Portfolio) as u32;
        flat_stocks += rows.is_in(Tier::Flat) as u32;
        entitlements += rows.rights();
    }
    Summary {
        heading,
        portfolio_stocks,
        flat_stocks,
        entitlements,
    }
}

impl<'a> CheckedFile<'a> {
    fn numbers(&self) -> Summary
        ensures file { verdict self.now.bytes.now ≡ Ok (file_of self.now.bytes.now self.now.heading) }
        ensures summary { result ≡ summary_of (file_of self.now.bytes.now self.now.heading) }
    {
        counted(self.heading, self.memory.table.as_slice())
    }

    // The file in numbers.
    pub fn summary(&self) -> Summary
        ensures { summarised (verdict self.now.bytes.now) ≡ Ok result }
    {
        self.numbers()
    }
}

// A file from its bytes: its check, and what it holds in numbers if it passes.
pub fn examine(bytes: &[u8], heap: Global) -> Result<Summary, Refusal>
    ensures answer { Examined (summarised (verdict bytes.now)) result }
    ensures law { FilesPass }
{
    let memory = Memory::for_file(bytes.len(), heap)?;
    let mut file = Received::new(bytes, memory);
    file.check()?;
    Ok(file.checked().summary())
}
