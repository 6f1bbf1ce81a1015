// The answers to posts and cancels: each on its own, and how often each was given.
ghost use Rattle.std.specs.Prelude.{◌≡◌, Some};
ghost use Rattle.margin_desk.specs.Answers.{answer_line, answer_report, no_answers, counted, one_more as one_more_of, refused_rows, counts_report};

use super::refusals::entry_meaning;
use figures::CountCell;
use ledger::EntryRefusal;
use std::fmt;

// The answer to a journal's line: the count of live entries, or the refusal. Journals and lines count from 1.
#[derive(Clone, Copy)]
pub struct Answer {
    pub journal: usize,
    pub line: usize,
    pub answer: Result<u32, EntryRefusal>,
}

// An answer, for scripts.
#[derive(Clone, Copy)]
pub struct CsvAnswer(pub Answer);

impl fmt::Display for CsvAnswer {
    ghost output = { λ x. Some (answer_line x.0) };

    fn fmt<W: fmt::Write>(&self, f: &mut fmt::Formatter<W>) -> fmt::Result {
        let journal = self.0.journal;
        let line = self.0.line;
        match self.0.answer {
            Ok(count) => write!(f, "answer,{journal},{line},ok,{count}"),
            Err(refusal) => {
                let question = refusal.number();
                write!(f, "answer,{journal},{line},refused,{question}")
            }
        }
    }
}

// An answer, for people.
#[derive(Clone, Copy)]
pub struct AnswerReport(pub Answer);

impl fmt::Display for AnswerReport {
    ghost output = { λ x. Some (answer_report x.0) };

    fn fmt<W: fmt::Write>(&self, f: &mut fmt::Formatter<W>) -> fmt::Result {
        let journal = self.0.journal;
        let line = self.0.line;
        match self.0.answer {
            Ok(count) => write!(
                f,
                "journal {journal}, line {line}: accepted, live entries now {count}"
            ),
            Err(refusal) => {
                let question = refusal.number();
                let meaning = entry_meaning(refusal);
                write!(
                    f,
                    "journal {journal}, line {line}: question {question}: {meaning}"
                )
            }
        }
    }
}

// How often each answer was given.
// Kept: an array of counts would be indexed by a number made of each refusal, where each field has the refusal's name.
#[derive(Clone, Copy)]
pub struct AnswerCounts {
    accepted: u32,
    number: u32,
    instrument: u32,
    size: u32,
    cancelled: u32,
    posted: u32,
    full: u32,
}

fn one_more(count: u32) -> u32
    ensures { result ≡ one_more_of count }
{
    count.saturating_add(1)
}

impl AnswerCounts {
    // No answer yet.
    pub fn new() -> AnswerCounts
        ensures { result ≡ no_answers }
    {
        AnswerCounts {
            accepted: 0,
            number: 0,
            instrument: 0,
            size: 0,
            cancelled: 0,
            posted: 0,
            full: 0,
        }
    }

    // One answer more.
    pub fn count(&mut self, answer: &Result<u32, EntryRefusal>)
        ensures { self.new ≡ counted answer.now self.old }
    {
        match answer {
            Ok(_) => self.accepted = one_more(self.accepted),
            Err(EntryRefusal::Number) => self.number = one_more(self.number),
            Err(EntryRefusal::Instrument) => self.instrument = one_more(self.instrument),
            Err(EntryRefusal::Size) => self.size = one_more(self.size),
            Err(EntryRefusal::Cancelled) => self.cancelled = one_more(self.cancelled),
            Err(EntryRefusal::Posted) => self.posted = one_more(self.posted),
            Err(EntryRefusal::Full) => self.full = one_more(self.full),
        }
    }
}

// How often each refusal was given, for people.
#[derive(Clone, Copy)]
struct RefusedRows<'a>(&'a AnswerCounts);

impl fmt::Display for RefusedRows<'_> {
    ghost output = { λ x. Some (refused_rows x.0.now) };

    fn fmt<W: fmt::Write>(&self, f: &mut fmt::Formatter<W>) -> fmt::Result {
        let number = CountCell(self.0.number);
        let instrument = CountCell(self.0.instrument);
        let size = CountCell(self.0.size);
        let cancelled = CountCell(self.0.cancelled);
        let posted = CountCell(self.0.posted);
        let full = CountCell(self.0.full);
        write!(
            f,
            "Refused by question 21, number out of range {number}\n\
             Refused by question 22, no instrument       {instrument}\n\
             Refused by question 23, size out of range   {size}\n\
             Refused by question 24, already cancelled   {cancelled}\n\
             Refused by question 25, already posted      {posted}\n\
             Refused by question 26, table full          {full}"
        )
    }
}

// How often each answer was given, for people.
#[derive(Clone, Copy)]
pub struct CountsReport<'a>(pub &'a AnswerCounts);

impl fmt::Display for CountsReport<'_> {
    ghost output = { λ x. Some (counts_report x.0.now) };

    fn fmt<W: fmt::Write>(&self, f: &mut fmt::Formatter<W>) -> fmt::Result {
        let accepted = CountCell(self.0.accepted);
        let refused = RefusedRows(self.0);
        write!(
            f,
            "Calls accepted                              {accepted}\n{refused}"
        )
    }
}
