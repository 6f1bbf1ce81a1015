// A checked file behind the interface of a return source.
ghost use Rattle.parameter_file.specs.Checked.{meaning_of};
ghost use Rattle.parameter_file.specs.SourceLaw.{checked_lawful};

use super::file::CheckedFile;
use return_source::{EntitlementType, Parameters, ReturnSource, RowRefusal, ScenarioSet, Tier};

impl ReturnSource for CheckedFile<'_> {
    ghost meaning = { λ f. meaning_of f.bytes.now f.heading };

    fn parameters(&self) -> Parameters {
        self.parameters()
    }

    fn tier(&self, stock: u32) -> Option<Tier> {
        self.tier(stock)
    }

    fn flat_rate(&self, stock: u32) -> Option<u32> {
        self.flat_rate(stock)
    }

    fn entitlement(&self, kind: EntitlementType, stock: u32) -> Option<(u32, (u32, u32))> {
        self.entitlement(kind, stock)
            .map(|e| (e.price, (e.short, e.long)))
    }

    fn write_row(
        &self,
        set: ScenarioSet,
        stock: u32,
        sheet: &mut [i32],
    ) -> Result<usize, RowRefusal> {
        let row = self.returns(set, stock).ok_or(RowRefusal::NoRow)?;
        if sheet.len() < row.len() {
            return Err(RowRefusal::ShortSheet);
        }
        sheet[..row.len()].copy_from_slice(row);
        Ok(row.len())
    }

    ghost lawful = { λ f. checked_lawful f.bytes.now f.heading f.passed f.heads };
}
