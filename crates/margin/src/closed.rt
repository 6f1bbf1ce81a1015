// A closed account: its places are left for reading only.
ghost use Rattle.std.specs.Prelude.{◌≡◌, ◌≤◌, true, length, take, pos};
ghost use Rattle.ledger.specs.Settings.{settings_in_range};
ghost use Rattle.ledger.specs.Table.{sound};
ghost use Rattle.margin_rules.specs.Positions.{book};
ghost use Rattle.margin_rules.specs.Answers.{assessment, sheet_after, list_after, no_outcome};
ghost use Rattle.margin_rules.specs.Laws.{AccountLaws};
ghost use Rattle.margin_rules.specs.Figures.{WorkedFigures};
ghost use Rattle.margin.specs.Assessing.{room_of};

use crate::assessing::assess_front;
use ledger::{Place, Settings};
use margin_rules::{Assessment, AssessmentRefusal, Holding, Outcome};
use return_source::ReturnSource;

// An account after its day; it takes no posts and no cancels.
#[derive(Drop)]
pub struct ClosedAccount<'a> {
    pub(crate) table: &'a [Place],
    pub(crate) settings: Settings,
    pub(crate) used: usize,
    ghost within: { used ≤ length table.now },
    ghost few: { length table.now ≤ 4096 },
    ghost in_range: { settings_in_range settings ≡ true },
    ghost fine: { sound (take used table.now) ≡ true },
}

impl ClosedAccount<'_> {
    // Works out what the clearing house will call, over a source. The sheets and the list are the caller's.
    pub fn assess<S: ReturnSource>(
        &self,
        source: &S,
        totals: &mut [i64],
        row: &mut [i32],
        tail: &mut [Outcome],
        holdings: &mut [Holding],
    ) -> Result<Assessment, AssessmentRefusal>
        ensures answer { result ≡ assessment (S.meaning source.now) self.now.settings (book (take self.now.used self.now.table.now)) (room_of (length totals.old) (length row.old) (length tail.old) (length holdings.old)) }
        ensures totals { totals.new ≡ sheet_after result (pos 0) totals.old }
        ensures row { row.new ≡ sheet_after result (pos 0) row.old }
        ensures tail { tail.new ≡ sheet_after result no_outcome tail.old }
        ensures holdings { holdings.new ≡ list_after result (book (take self.now.used self.now.table.now)) holdings.old }
        ensures laws { AccountLaws }
        ensures figures { WorkedFigures }
    {
        let used = self.used;
        let settings = self.settings;
        assess_front(
            self.table, used, &settings, source, totals, row, tail, holdings,
        )
    }
}
