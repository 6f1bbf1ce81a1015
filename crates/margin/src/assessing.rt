// The assessment of a table's places: the questions in their order, the figures, and what the sheets are left with.
// Kept: the three lent sheets stay parameters of their own: in a struct two of them cannot be lent at once ("a call keeps the loan of a slice in a field while another field is used").
ghost use Rattle.std.specs.Prelude.{◌≡◌, ◌≤◌, true, length, take, replicate, pos, unsigned_abs};
ghost use Rattle.ledger.specs.Settings.{settings_in_range};
ghost use Rattle.ledger.specs.Table.{sound};
ghost use Rattle.margin_rules.specs.Positions.{all_stocks, book};
ghost use Rattle.margin_rules.specs.Charges.{all_rates};
ghost use Rattle.margin_rules.specs.Requirement.{figures_of};
ghost use Rattle.margin_rules.specs.Answers.{fits, unless_large, assessment, sheet_after, list_after, no_outcome};
ghost use Rattle.margin_rules.specs.declared.terms.Room.{Room};
ghost use Rattle.margin.specs.Groups.{TotalsFit, RowFits, TailFits};
ghost use Rattle.margin.specs.Assessing.{room_of};

use crate::account::{Account, Assessable};
use crate::requirement::Margins;
use ledger::{Place, Settings};
use margin_rules::{Assessment, AssessmentRefusal, Holding, Outcome, Room};
use return_source::ReturnSource;

// The most gross market value that is assessed, in whole dollars.
const MOST_GROSS: i64 = 20_000_000_000;

// The most portfolio and flat-rate margin together, in whole dollars.
const MOST_MARGIN: i64 = 900_000_000;

// The longest holdings list.
const MOST_HOLDINGS: usize = 64;

// Have the sheets places enough, and has the list not too many?
fn has_room<S: ReturnSource>(source: &S, room: Room) -> bool
    ensures { result ≡ fits (S.meaning source.now) room }
{
    let p = source.parameters();
    let historical = p.historical;
    let stress = p.stress;
    historical.count as usize + stress.count as usize <= room.totals
        && historical.count.max(stress.count) as usize <= room.row
        && historical.tail.max(stress.tail) as usize <= room.tail
        && room.holdings <= MOST_HOLDINGS
}

// Leaves zeros in the sheets and the tail places.
fn clear(totals: &mut [i64], row: &mut [i32], tail: &mut [Outcome])
    ensures totals { totals.new ≡ replicate (length totals.old) (pos 0) }
    ensures row { row.new ≡ replicate (length row.old) (pos 0) }
    ensures tail { tail.new ≡ replicate (length tail.old) no_outcome }
{
    totals.fill(0);
    row.fill(0);
    tail.fill(Outcome {
        total: 0,
        scenario: 0,
    });
}

impl<S: ReturnSource> Assessable<'_, S> {
    // The figures, or that portfolio and flat-rate margin together are too large.
    fn figures(
        &self,
        totals: &mut [i64],
        row: &mut [i32],
        tail: &mut [Outcome],
    ) -> Result<Assessment, AssessmentRefusal>
        requires totals { TotalsFit (S.meaning self.now.source.now) (length totals.old) }
        requires row { RowFits (S.meaning self.now.source.now) (length row.old) }
        requires tail { TailFits (S.meaning self.now.source.now) (length tail.old) }
        ensures { result ≡ unless_large (figures_of (S.meaning self.now.source.now) self.now.account.settings.now all_stocks all_rates (book self.now.account.places.now)) }
    {
        let portfolio = self.portfolio_margin(totals, row, tail);
        let flat_rate = self.flat_margin();
        if portfolio + flat_rate > MOST_MARGIN {
            return Err(AssessmentRefusal::Margin);
        }
        let account = self.account;
        let corporate_action = self.corporate_margin();
        let positions = self.portfolio_positions();
        let mark = account.mark();
        let margins = Margins {
            portfolio,
            flat_rate,
            corporate_action,
        };
        Ok(account.figures_on(self.source.parameters(), margins, mark, positions))
    }
}

// The assessment of the places used.
fn assess_places<S: ReturnSource>(
    account: &Account<'_>,
    source: &S,
    totals: &mut [i64],
    row: &mut [i32],
    tail: &mut [Outcome],
    holdings: &mut [Holding],
) -> Result<Assessment, AssessmentRefusal>
    ensures answer { result ≡ assessment (S.meaning source.now) account.now.settings.now (book account.now.places.now) (room_of (length totals.old) (length row.old) (length tail.old) (length holdings.old)) }
    ensures totals { totals.new ≡ sheet_after result (pos 0) totals.old }
    ensures row { row.new ≡ sheet_after result (pos 0) row.old }
    ensures tail { tail.new ≡ sheet_after result no_outcome tail.old }
    ensures holdings { holdings.new ≡ list_after result (book account.now.places.now) holdings.old }
{
    let room = Room {
        totals: totals.len(),
        row: row.len(),
        tail: tail.len(),
        holdings: holdings.len(),
    };
    if !has_room(source, room) {
        return Err(AssessmentRefusal::Sheets);
    }
    if let Some(instrument) = account.first_uncovered(source) {
        return Err(AssessmentRefusal::Uncovered {
            kind: instrument.kind,
            stock: instrument.stock,
        });
    }
    if account.gross() > MOST_GROSS {
        return Err(AssessmentRefusal::GrossMarketValue);
    }
    let assessable = Assessable {
        account: *account,
        source,
    };
    let answer = assessable.figures(totals, row, tail);
    clear(totals, row, tail);
    if answer.is_ok() {
        account.list_holdings(holdings);
    }
    answer
}

// The assessment of the front of a table.
pub(crate) fn assess_front<S: ReturnSource>(
    table: &[Place],
    used: usize,
    settings: &Settings,
    source: &S,
    totals: &mut [i64],
    row: &mut [i32],
    tail: &mut [Outcome],
    holdings: &mut [Holding],
) -> Result<Assessment, AssessmentRefusal>
    requires within { used ≤ length table.now }
    requires few { length table.now ≤ 4096 }
    requires sound { sound (take used table.now) ≡ true }
    requires settings { settings_in_range settings.now ≡ true }
    ensures answer { result ≡ assessment (S.meaning source.now) settings.now (book (take used table.now)) (room_of (length totals.old) (length row.old) (length tail.old) (length holdings.old)) }
    ensures totals { totals.new ≡ sheet_after result (pos 0) totals.old }
    ensures row { row.new ≡ sheet_after result (pos 0) row.old }
    ensures tail { tail.new ≡ sheet_after result no_outcome tail.old }
    ensures holdings { holdings.new ≡ list_after result (book (take used table.now)) holdings.old }
{
    let account = Account {
        places: &table[0..used],
        settings,
    };
    assess_places(&account, source, totals, row, tail, holdings)
}
