// An open account: opening, posts, cancels and closing.
ghost use Rattle.std.specs.Prelude.{◌≡◌, ◌≤◌, true, List, [], length, take, drop, replicate, pos, Ok};
ghost use Rattle.ledger.specs.Settings.{settings_in_range, opening_answer};
ghost use Rattle.ledger.specs.Table.{live_count, sound};
ghost use Rattle.ledger.specs.Calls.{posts, cancels, after, checked_post, checked_cancel, post_answer, cancel_answer};
ghost use Rattle.ledger.specs.Laws.{OrderDoesNotCount, CancelledStaysCancelled, EachNumberOnePlace, LiveIsPostedAndNotCancelled};
ghost use Rattle.ledger.specs.declared.terms.Place.TheVariants.{Free};
ghost use Rattle.margin_rules.specs.Positions.{book};
ghost use Rattle.margin_rules.specs.Answers.{assessment, sheet_after, list_after, no_outcome};
ghost use Rattle.margin_rules.specs.Laws.{AccountLaws};
ghost use Rattle.margin_rules.specs.Figures.{WorkedFigures};
ghost use Rattle.margin.specs.Assessing.{room_of};

use crate::assessing::assess_front;
use crate::closed::ClosedAccount;
use ledger::{Entry, EntryRefusal, OpeningRefusal, Place, Posting, Settings};
use margin_rules::{Assessment, AssessmentRefusal, Holding, Outcome};
use return_source::ReturnSource;

// An account in its day: the front of the table holds the places used.
#[derive(Drop)]
pub struct OpenAccount<'a> {
    table: &'a mut [Place],
    settings: Settings,
    used: usize,
    live: u32,
    ghost within: { used ≤ length table.now },
    ghost few: { length table.now ≤ 4096 },
    ghost in_range: { settings_in_range settings ≡ true },
    ghost count: { live ≡ live_count (take used table.now) },
    ghost fine: { sound (take used table.now) ≡ true },
}

// May an account be opened over a table with these settings? Moves nothing.
pub fn check_open(table: &[Place], settings: &Settings) -> Result<(), OpeningRefusal>
    ensures { result ≡ opening_answer (length table.now) settings.now }
{
    ledger::check_opening(table.len(), settings)
}

// Opens an account and clears its table.
pub fn open<'a>(table: &'a mut [Place], settings: Settings) -> OpenAccount<'a>
    requires { opening_answer (length table.old) settings ≡ Ok tt }
    ensures table { result.table.now ≡ replicate (length table.old) Free }
    ensures places { take result.used result.table.now ≡ [] }
    ensures used { result.used ≡ 0 }
    ensures settings { result.settings ≡ settings }
    ensures named { result.table.ghost_name ≡ table.entry.ghost_name }
{
    table.fill(Place::Free);
    OpenAccount {
        table,
        settings,
        used: 0,
        live: 0,
    }
}

// The table is lent to a function only where the account is behind a `&`.
fn check_post_in(table: &[Place], used: usize, posting: &Posting) -> Result<Entry, EntryRefusal>
    requires { used ≤ length table.now }
    ensures { result ≡ checked_post (length table.now) posting.now (take used table.now) }
{
    ledger::check_post(&table[0..used], table.len(), posting)
}

fn check_cancel_in(table: &[Place], used: usize, number: u32) -> Result<usize, EntryRefusal>
    requires { used ≤ length table.now }
    ensures { result ≡ checked_cancel (length table.now) number (take used table.now) }
{
    ledger::check_cancel(&table[0..used], table.len(), number)
}

impl<'a> OpenAccount<'a> {
    // The entry that a post stores, or why it is refused.
    fn check_post(&self, posting: &Posting) -> Result<Entry, EntryRefusal>
        ensures { result ≡ checked_post (length self.now.table.now) posting.now (take self.now.used self.now.table.now) }
    {
        let used = self.used;
        check_post_in(self.table, used, posting)
    }

    // The place that a cancel marks, or why it is refused.
    fn check_cancel(&self, number: u32) -> Result<usize, EntryRefusal>
        ensures { result ≡ checked_cancel (length self.now.table.now) number (take self.now.used self.now.table.now) }
    {
        let used = self.used;
        check_cancel_in(self.table, used, number)
    }

    // Stores an entry, and answers how many entries are then live.
    fn store(&mut self, posting: Posting) -> Result<u32, EntryRefusal>
        ensures answer { result ≡ post_answer (length self.old.table.now) posting (take self.old.used self.old.table.now) }
        ensures places { take self.new.used self.new.table.now ≡ after (length self.old.table.now) (posts posting) (take self.old.used self.old.table.now) }
        ensures rest { drop self.new.used self.new.table.now ≡ drop self.new.used self.old.table.now }
        ensures room { length self.new.table.now ≡ length self.old.table.now }
        ensures settings { self.new.settings ≡ self.old.settings }
        ensures named { self.new.table.ghost_name ≡ self.old.table.ghost_name }
    {
        let entry = self.check_post(&posting)?;
        let at = self.used;
        self.table[at] = Place::Live {
            number: posting.number,
            entry,
        };
        self.used = at + 1;
        self.live += 1;
        Ok(self.live)
    }

    // Ends the entry of a number, or keeps a place for the number alone.
    fn end(&mut self, number: u32) -> Result<u32, EntryRefusal>
        ensures answer { result ≡ cancel_answer (length self.old.table.now) number (take self.old.used self.old.table.now) }
        ensures places { take self.new.used self.new.table.now ≡ after (length self.old.table.now) (cancels number) (take self.old.used self.old.table.now) }
        ensures rest { drop self.new.used self.new.table.now ≡ drop self.new.used self.old.table.now }
        ensures room { length self.new.table.now ≡ length self.old.table.now }
        ensures settings { self.new.settings ≡ self.old.settings }
        ensures named { self.new.table.ghost_name ≡ self.old.table.ghost_name }
    {
        let at = self.check_cancel(number)?;
        let used = self.used;
        if at < used {
            self.table[at] = Place::Cancelled { number };
            self.live -= 1;
            return Ok(self.live);
        }
        self.table[used] = Place::Cancelled { number };
        self.used = used + 1;
        Ok(self.live)
    }

    // Posts an entry, and answers how many entries are then live.
    pub fn post(&mut self, posting: Posting) -> Result<u32, EntryRefusal>
        ensures answer { result ≡ post_answer (length self.old.table.now) posting (take self.old.used self.old.table.now) }
        ensures places { take self.new.used self.new.table.now ≡ after (length self.old.table.now) (posts posting) (take self.old.used self.old.table.now) }
        ensures rest { drop self.new.used self.new.table.now ≡ drop self.new.used self.old.table.now }
        ensures room { length self.new.table.now ≡ length self.old.table.now }
        ensures settings { self.new.settings ≡ self.old.settings }
        ensures named { self.new.table.ghost_name ≡ self.old.table.ghost_name }
        ensures order { OrderDoesNotCount }
        ensures cancelled { CancelledStaysCancelled }
        ensures one_place { EachNumberOnePlace }
        ensures live { LiveIsPostedAndNotCancelled }
    {
        self.store(posting)
    }

    // Cancels a number, whether it was posted or not, and answers how many entries are then live.
    pub fn cancel(&mut self, number: u32) -> Result<u32, EntryRefusal>
        ensures answer { result ≡ cancel_answer (length self.old.table.now) number (take self.old.used self.old.table.now) }
        ensures places { take self.new.used self.new.table.now ≡ after (length self.old.table.now) (cancels number) (take self.old.used self.old.table.now) }
        ensures rest { drop self.new.used self.new.table.now ≡ drop self.new.used self.old.table.now }
        ensures room { length self.new.table.now ≡ length self.old.table.now }
        ensures settings { self.new.settings ≡ self.old.settings }
        ensures named { self.new.table.ghost_name ≡ self.old.table.ghost_name }
        ensures order { OrderDoesNotCount }
        ensures cancelled { CancelledStaysCancelled }
        ensures one_place { EachNumberOnePlace }
        ensures live { LiveIsPostedAndNotCancelled }
    {
        self.end(number)
    }

    // Works out what the clearing house will call, over a source. The sheets and the list are the caller's.
    pub fn assess<S: ReturnSource>(
        &self,
        source: &S,
        totals: &mut [i64],
        row: &mut [i32],
        tail: &mut [Outcome],
        holdings: &mut [Holding],
    ) -> Result<Assessment, AssessmentRefusal>
        ensures answer { result ≡ assessment (S.meaning source.now) self.now.settings (book (take self.now.used self.now.table.now)) (room_of (length totals.old) (length row.old) (length tail.old) (length holdings.old)) }
        ensures totals { totals.new ≡ sheet_after result (pos 0) totals.old }
        ensures row { row.new ≡ sheet_after result (pos 0) row.old }
        ensures tail { tail.new ≡ sheet_after result no_outcome tail.old }
        ensures holdings { holdings.new ≡ list_after result (book (take self.now.used self.now.table.now)) holdings.old }
        ensures laws { AccountLaws }
        ensures figures { WorkedFigures }
    {
        let used = self.used;
        let settings = self.settings;
        assess_front(
            self.table, used, &settings, source, totals, row, tail, holdings,
        )
    }

    // Closes the account: its places can then only be read.
    pub fn close(self) -> ClosedAccount<'a>
        ensures table { result.table.now ≡ self.entry.table.now }
        ensures used { result.used ≡ self.entry.used }
        ensures settings { result.settings ≡ self.entry.settings }
    {
        let OpenAccount {
            table,
            settings,
            used,
            live: _,
        } = self;
        ClosedAccount {
            table,
            settings,
            used,
        }
    }
}
