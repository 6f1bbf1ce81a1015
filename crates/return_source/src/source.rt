// The interface of a return source. Each question is total: it takes any stock, any type and any sheet, alters nothing of
// the source, and answers by what the source means alone. So sources of equal meaning count as one.
ghost use Rattle.std.specs.Prelude.{◌≡◌, length};
ghost use Rattle.std.specs.Option.{option_map};
ghost use Rattle.return_source.specs.Meaning.{Meaning, tier_of, numbers_of, row_answer, row_sheet, covered};
ghost use Rattle.return_source.specs.Lawful.{Lawful, TiersByRows};

use super::terms::{EntitlementType, Parameters, RowRefusal, ScenarioSet, Tier};

// What a return source tells. The parameters and the rows are those of its meaning.
pub trait ReturnSource {
    // What the source means.
    ghost meaning: { Self → Meaning };

    // The parameters.
    fn parameters(&self) -> Parameters
        ensures { result ≡ (meaning self.now).parameters };

    // The tier of a stock, if it has one.
    fn tier(&self, stock: u32) -> Option<Tier>
        ensures { result ≡ tier_of (meaning self.now) stock };

    // The flat rate of a stock in ten-thousandths, if it has one.
    fn flat_rate(&self, stock: u32) -> Option<u32>
        ensures { result ≡ (meaning self.now).rate stock };

    // The price of an entitlement and the pair of its short and long percentage, in ten-thousandths and without sign, if
    // the stock has one of that type.
    // Kept: a price and a pair, as the interface of a return source is laid down, and no struct.
    fn entitlement(&self, kind: EntitlementType, stock: u32) -> Option<(u32, (u32, u32))>
        ensures { result ≡ option_map numbers_of ((meaning self.now).entitlement kind stock) };

    // Writes the returns of a stock into the front of a sheet, in hundred-millionths, and answers how many there are. The
    // rest of the sheet stays. Where there is no row, or then where the sheet is shorter than the row, nothing is written.
    fn write_row(
        &self,
        set: ScenarioSet,
        stock: u32,
        sheet: &mut [i32],
    ) -> Result<usize, RowRefusal>
        ensures answer { result ≡ row_answer ((meaning self.now).returns set stock) (length sheet.old) }
        ensures written { sheet.new ≡ row_sheet ((meaning self.now).returns set stock) sheet.old };

    // What each implementation owes: its meaning keeps the ranges and the rules on which rows stand together.
    ghost lawful: { (s : Self) → Lawful (meaning s) };
}

// May an instrument be charged? The stock itself where it has a tier, an entitlement where the stock has one of its type.
// The tiers of every lawful source are told by its rows.
pub fn covers<S: ReturnSource>(source: &S, stock: u32, kind: Option<EntitlementType>) -> bool
    ensures answer { result ≡ covered (S.meaning source.now) stock kind }
    ensures tiers { TiersByRows }
{
    match kind {
        None => source.tier(stock).is_some(),
        Some(kind) => source.entitlement(kind, stock).is_some(),
    }
}
