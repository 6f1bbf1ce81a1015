// Works out the margin requirement of a settlement account from its journals, and prints it or why it is refused.
#![tactic(auto)]

ghost use Rattle.std.specs.Prelude.{◌≡◌, ◌+◌, IfOk, OnOk, vec_len, length, map, take, max, min};
ghost use Rattle.ledger.specs.Calls.{after};
ghost use Rattle.margin_call.specs.Applied.{call_made, answer_made, places_after, journal_calls, all_calls};

use desk::{CsvFault, FaultReport};
use fallback_source::FallbackSource;
use figures::{Form, InForm};
use ledger::{EntryRefusal, Kind, Place, Settings};
use margin::{ClosedAccount, OpenAccount, check_open, open};
use margin_desk::{
    Answer, AnswerCounts, AnswerReport, AssessmentText, CountsReport, CsvAnswer, CsvRefused,
    Journals, MarginCall, Refused, RefusedReport, Request, Source,
};
use margin_files::{Calls, FormFault, JournalCall, check_journal, read_settings};
use margin_rules::{Holding, Outcome};
use parameter_file::{Memory, Received};
use program::{NotDone, Program};
use return_source::ReturnSource;
use std::alloc::{AllocError, Global};
use std::fmt::Display;
use std::process::ExitCode;

// The program's name, before what it says on standard error.
const NAME: &str = "margin_call";

const USAGE: &str = "\
usage: margin_call [--csv] [--trace] (--rpf FILE | --fallback RATE) --settings FILE
                   [--places N] [--holdings K] JOURNAL...
       margin_call --help";

const HELP: &str = "\
Applies the journals to an account that is opened with the settings, and works out what the clearing
house will call: portfolio, flat-rate, corporate-action and holiday margin, and the total.

  --rpf FILE       the parameter file of the evening (RPF01); or, where there is none,
  --fallback RATE  the one rate of every stock, as 0.06
  --settings FILE  nine lines of a name and a value: Multiplier, Credit, Floor_Rate, Liquidation,
                   Structured_Product, Position_Limit, Credit_Risk, Ad_Hoc, and IPO with up to sixteen stocks
  --places N       the places of the account's table, 4096 unless said otherwise, which is the most
  --holdings K     the places of the list of the greatest holdings, 10 unless said otherwise, at most 64
  --trace          print the answer to each line of the journals too
  --csv            print lines for scripts in place of the report for people
  --help           print this text

A journal has a call on each line: post,NUMBER,KIND,STOCK,QUANTITY,CONTRACT_VALUE,MARKET_VALUE or cancel,NUMBER.
Journals are applied in the order given. A refused post or cancel is counted, and the run goes on.
Options may stand anywhere. A journal whose name begins with a dash is given as ./-NAME.
The exit status is 0, or 1 where the call is refused or could not be worked out.

example:  margin_call --csv --rpf samples/worked_day.csv --settings samples/worked_day_settings.csv samples/worked_day_journal.csv
prints    portfolio,3100
          flat_rate,600
          and so on, down to the list of holdings; a multiplier of 5.00 would give refused,12";

// A parameter file has up to 64 MiB, so one byte more shows that a file is longer.
const MOST_FILE_BYTES: u64 = 67_108_864 + 1;

// Nine lines within their form are far shorter, so that a longer file has its first fault within this front.
const MOST_SETTINGS_BYTES: u64 = 65_536;

// A table of one place too many is refused like every longer one, and takes no more memory than this.
const PLACES_TOO_MANY: usize = 4096 + 1;

// The same of the list of holdings.
const HOLDINGS_TOO_MANY: usize = 64 + 1;

fn main(rt: HostRuntime) -> ExitCode {
    let program = Program {
        rt: &rt,
        name: NAME,
    };
    match run(&program) {
        Ok(()) => ExitCode::SUCCESS,
        Err(NotDone) => ExitCode::FAILURE,
    }
}

// Does what the arguments ask for.
fn run(program: &Program<'_>) -> Result<(), NotDone> {
    let words = program.arguments()?;
    let request = Request::from_words(words.as_slice()).map_err(|error| program.not_done(
        format_args!("{error}\n{USAGE}"),
    ))?;
    match request {
        Request::Help => program.print(format_args!("{USAGE}\n\n{HELP}")),
        Request::Call(wanted) => margin_call(program, &wanted),
    }
}

// First the form of the settings and of every journal, then the source, and then the day.
fn margin_call<'a>(program: &'a Program<'a>, wanted: &'a MarginCall<'a>) -> Result<(), NotDone> {
    let settings = settings(program, wanted.settings)?;
    let journals = journals(program, wanted.journals)?;
    let day = Day {
        program,
        wanted,
        settings,
        journals: journals.as_slice(),
    };
    match wanted.source {
        Source::File(path) => {
            let bytes = program.front_of(path, MOST_FILE_BYTES)?;
            day.over_file(path, bytes.as_slice())
        }
        Source::Rate(rate) => {
            let source = FallbackSource::new(rate).map_err(|refusal| day.refused(Refused::Rate(
                refusal,
            )))?;
            day.over(&source)
        }
    }
}

// The settings of a file.
fn settings(program: &Program<'_>, path: &str) -> Result<Settings, NotDone> {
    let bytes = program.front_of(path, MOST_SETTINGS_BYTES)?;
    read_settings(bytes.as_slice()).map_err(|FormFault { line }| {
        program.not_done(format_args!(
            "{path}, line {line}: this is no line that a settings file has here"
        ))
    })
}

// The journals' bytes, each checked whole.
fn journals(program: &Program<'_>, names: Journals<'_>) -> Result<Vec<Vec<u8>>, NotDone> {
    let mut journals = Vec::new(program.rt.alloc());
    for path in names {
        journals
            .push(journal(program, path)?)
            .map_err(|_| no_memory(program))?;
    }
    Ok(journals)
}

fn journal(program: &Program<'_>, path: &str) -> Result<Vec<u8>, NotDone> {
    let bytes = program.front_of(path, u64::MAX)?;
    check_journal(bytes.as_slice()).map_err(|FormFault { line }| {
        program.not_done(format_args!("{path}, line {line}: this is neither a post nor a cancel"))
    })?;
    Ok(bytes)
}

fn no_memory(program: &Program<'_>) -> NotDone {
    program.not_done("not enough memory")
}

// A day to work out: the program, what is asked of it, the account's settings, and the journals, each checked whole.
#[derive(Clone, Copy)]
struct Day<'a> {
    program: &'a Program<'a>,
    wanted: &'a MarginCall<'a>,
    settings: Settings,
    journals: &'a [Vec<u8>],
}

impl Day<'_> {
    // The day over a parameter file, where that passes its check.
    fn over_file(&self, path: &str, bytes: &[u8]) -> Result<(), NotDone> {
        let memory = Memory::for_file(bytes.len(), self.program.rt.alloc()).map_err(|_| self
            .program
            .not_done(format_args!("{path}: not enough memory")))?;
        let mut file = Received::new(bytes, memory);
        file.check().map_err(|fault| self.refused_as(FaultReport(&fault), CsvFault(&fault)))?;
        self.over(&file.checked())
    }

    // Opens the account, applies the journals, closes it and assesses it.
    fn over<S: ReturnSource>(&self, source: &S) -> Result<(), NotDone> {
        let places = self.wanted.places.min(PLACES_TOO_MANY);
        let mut table = vec![in self.program.rt.alloc(); Place::Free; places].map_err(|_| no_memory(
            self.program,
        ))?;
        check_open(table.as_slice(), &self.settings).map_err(|refusal| self.refused(
            Refused::Opening(refusal),
        ))?;
        let mut account = open(table.as_mut_slice(), self.settings);
        let counts = self.apply(&mut account)?;
        self.assess(source, &account.close(), &counts)
    }

    // Applies the journals, each from its first line to its last, and counts the answers.
    fn apply(&self, account: &mut OpenAccount<'_>) -> Result<AnswerCounts, NotDone>
        ensures places { OnOk result (take account.new.used account.new.table.now ≡ places_after (length account.old.table.now) (all_calls (map (λ v. v.items) self.now.journals.now)) (take account.old.used account.old.table.now)) }
        ensures room { length account.new.table.now ≡ length account.old.table.now }
        ensures settings { account.new.settings ≡ account.old.settings }
    {
        let mut counts = AnswerCounts::new();
        for (index, journal) in self.journals.iter().enumerate() {
            self.apply_journal(index + 1, journal.as_slice(), account, &mut counts)?;
        }
        Ok(counts)
    }

    fn apply_journal(
        &self,
        journal: usize,
        text: &[u8],
        account: &mut OpenAccount<'_>,
        counts: &mut AnswerCounts,
    ) -> Result<(), NotDone>
        ensures places { OnOk result (take account.new.used account.new.table.now ≡ places_after (length account.old.table.now) (journal_calls text.now) (take account.old.used account.old.table.now)) }
        ensures room { length account.new.table.now ≡ length account.old.table.now }
        ensures settings { account.new.settings ≡ account.old.settings }
    {
        // Kept: the line is counted here, since `enumerate` asks whether the calls can be counted, which can be shown of the whole
        // text alone: with half of it a proof would fail for that and not for what the calls leave.
        let mut line: usize = 0;
        for call in Calls::new(text) {
            line = line.saturating_add(1);
            let answer = answer(account, call);
            counts.count(&answer);
            if self.wanted.trace {
                self.trace(Answer {
                    journal,
                    line,
                    answer,
                })?;
            }
        }
        Ok(())
    }

    fn trace(&self, answer: Answer) -> Result<(), NotDone> {
        self.print_in_form(AnswerReport(answer), CsvAnswer(answer))
    }

    // Assesses the closed account, and prints the answer; for people also how often each answer was given to the journals.
    fn assess<S: ReturnSource>(
        &self,
        source: &S,
        account: &ClosedAccount<'_>,
        counts: &AnswerCounts,
    ) -> Result<(), NotDone> {
        let mut sheets = Sheets::for_source(
            source,
            self.wanted.holdings,
            self.program.rt.alloc(),
        ).map_err(|_| no_memory(self.program))?;
        let answer = account.assess(
            source,
            sheets.totals.as_mut_slice(),
            sheets.row.as_mut_slice(),
            sheets.tail.as_mut_slice(),
            sheets.holdings.as_mut_slice(),
        );
        if let Form::Report = self.wanted.form {
            let counts = CountsReport(counts);
            self.program.print(format_args!("{counts}\n"))?;
        }
        let figures = answer.map_err(|refusal| self.refused(Refused::Assessment(refusal)))?;
        self.program.print(AssessmentText {
            figures: &figures,
            holdings: sheets.holdings.as_slice(),
            form: self.wanted.form,
        })
    }

    // Prints why the whole call is refused.
    fn refused(&self, why: Refused) -> NotDone {
        self.refused_as(RefusedReport(why), CsvRefused(why))
    }

    // Prints a refusal. The job is not done, whether that could be printed or not.
    fn refused_as<R: Display + Drop, C: Display + Drop>(&self, report: R, csv: C) -> NotDone {
        self.print_in_form(report, csv).err().unwrap_or(NotDone)
    }

    // Prints a text in the form that is asked for.
    fn print_in_form<R: Display + Drop, C: Display + Drop>(
        &self,
        report: R,
        csv: C,
    ) -> Result<(), NotDone> {
        self.program.print(InForm {
            form: self.wanted.form,
            report,
            csv,
        })
    }
}

// Makes one call of a journal.
fn answer(account: &mut OpenAccount<'_>, call: JournalCall) -> Result<u32, EntryRefusal>
    ensures answer { result ≡ answer_made (length account.old.table.now) call (take account.old.used account.old.table.now) }
    ensures places { take account.new.used account.new.table.now ≡ after (length account.old.table.now) (call_made call) (take account.old.used account.old.table.now) }
    ensures room { length account.new.table.now ≡ length account.old.table.now }
    ensures settings { account.new.settings ≡ account.old.settings }
{
    match call {
        JournalCall::Post(posting) => account.post(posting),
        JournalCall::Cancel { number } => account.cancel(number),
    }
}

// What an assessment is given to write into.
#[derive(Drop)]
struct Sheets {
    totals: Vec<i64>,
    row: Vec<i32>,
    tail: Vec<Outcome>,
    holdings: Vec<Holding>,
}

impl Sheets {
    // Sheets as long as a source needs them, and a list of so many places.
    fn for_source<S: ReturnSource>(
        source: &S,
        holdings: usize,
        heap: Global,
    ) -> Result<Sheets, AllocError>
        ensures totals { IfOk result (λ s. vec_len s.totals ≡ (S.meaning source.now).parameters.historical.count + (S.meaning source.now).parameters.stress.count) }
        ensures row { IfOk result (λ s. vec_len s.row ≡ max (S.meaning source.now).parameters.historical.count (S.meaning source.now).parameters.stress.count) }
        ensures tail { IfOk result (λ s. vec_len s.tail ≡ max (S.meaning source.now).parameters.historical.tail (S.meaning source.now).parameters.stress.tail) }
        ensures holdings { IfOk result (λ s. vec_len s.holdings ≡ min holdings 65) }
    {
        let parameters = source.parameters();
        let historical = parameters.historical;
        let stress = parameters.stress;
        let no_outcome = Outcome {
            total: 0,
            scenario: 0,
        };
        let no_holding = Holding {
            kind: Kind::Stock,
            stock: 0,
            market_value: 0,
        };
        Ok(Sheets {
            totals: vec![in heap; 0; historical.count as usize + stress.count as usize]?,
            row: vec![in heap; 0; historical.count.max(stress.count) as usize]?,
            tail: vec![in heap; no_outcome; historical.tail.max(stress.tail) as usize]?,
            holdings: vec![in heap; no_holding; holdings.min(HOLDINGS_TOO_MANY)]?,
        })
    }
}
