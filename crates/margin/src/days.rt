// A whole day of an account in one call.
ghost use Rattle.std.specs.Prelude.{◌≡◌, List, [], length, take, drop};
ghost use Rattle.ledger.specs.Settings.{opening_answer};
ghost use Rattle.ledger.specs.Calls.{assesses, after, runs};
ghost use Rattle.margin_rules.specs.Laws.{AccountLaws, asked};
ghost use Rattle.margin.specs.Days.{call_of, calls_of, as_assessing, day_answer, sheets_of, room_in, served, sheets_left, sheets_at_end, TableAtEnd};

use crate::opened::{OpenAccount, check_open, open};
use crate::requests::{DayRefusal, Request};
use ledger::{Place, Settings};
use margin_rules::{Assessment, AssessmentRefusal, Holding, Outcome};
use return_source::ReturnSource;

impl OpenAccount<'_> {
    // Serves one request, whatever it answers.
    fn serve<S: ReturnSource>(
        &mut self,
        request: Request,
        source: &S,
        totals: &mut [i64],
        row: &mut [i32],
        tail: &mut [Outcome],
        holdings: &mut [Holding],
    )
        ensures places { take self.new.used self.new.table.now ≡ after (length self.old.table.now) (call_of request) (take self.old.used self.old.table.now) }
        ensures rest { drop self.new.used self.new.table.now ≡ drop self.new.used self.old.table.now }
        ensures room { length self.new.table.now ≡ length self.old.table.now }
        ensures settings { self.new.settings ≡ self.old.settings }
        ensures named { self.new.table.ghost_name ≡ self.old.table.ghost_name }
        ensures sheets { sheets_of totals.new row.new tail.new holdings.new ≡ served (S.meaning source.now) self.old.settings (call_of request) (take self.old.used self.old.table.now) (sheets_of totals.old row.old tail.old holdings.old) }
    {
        match request {
            Request::Post(posting) => {
                let _ = self.post(posting);
            }
            Request::Cancel(number) => {
                let _ = self.cancel(number);
            }
            Request::Assess => {
                let _ = self.assess(source, totals, row, tail, holdings);
            }
        }
    }
}

// The answer of a day's last assessment.
fn as_day(answer: Result<Assessment, AssessmentRefusal>) -> Result<Assessment, DayRefusal>
    ensures { result ≡ as_assessing answer }
{
    Ok(answer?)
}

// Opens an account, serves the requests one after the other, and assesses it once more. The table then holds the places
// that the requests took.
pub fn day<S: ReturnSource>(
    table: &mut [Place],
    settings: Settings,
    requests: &[Request],
    source: &S,
    totals: &mut [i64],
    row: &mut [i32],
    tail: &mut [Outcome],
    holdings: &mut [Holding],
) -> Result<Assessment, DayRefusal>
    ensures answer { result ≡ day_answer (opening_answer (length table.old) settings) (asked (S.meaning source.now) settings (length table.old) (calls_of requests.now) (room_in (sheets_of totals.old row.old tail.old holdings.old))) }
    ensures sheets { sheets_of totals.new row.new tail.new holdings.new ≡ sheets_at_end (opening_answer (length table.old) settings) (served (S.meaning source.now) settings assesses (runs (length table.old) (calls_of requests.now) []) (sheets_left (S.meaning source.now) settings (length table.old) (calls_of requests.now) [] (sheets_of totals.old row.old tail.old holdings.old))) (sheets_of totals.old row.old tail.old holdings.old) }
    ensures table { TableAtEnd (opening_answer (length table.old) settings) (runs (length table.old) (calls_of requests.now) []) table.old table.new }
    ensures laws { AccountLaws }
{
    check_open(table, &settings)?;
    let mut account = open(table, settings);
    for request in requests {
        account.serve(*request, source, totals, row, tail, holdings);
    }
    let answer = account.assess(source, totals, row, tail, holdings);
    as_day(answer)
}
