// The text of each answer, and each outcome of reading the command line.
use super::{
    Answer, AnswerCounts, AnswerReport, AssessmentText, CountsReport, CsvAnswer, CsvRefused,
    MarginCall, Refused, RefusedReport, Request, Source,
};
use fallback_source::RateRefusal;
use figures::Form;
use ledger::{EntryRefusal, Kind, OpeningRefusal};
use margin_rules::{Assessment, AssessmentRefusal, Holding};
use std::alloc::{AllocError, Global};
use std::fmt::Display;
use std::test::Fail;

// What is printed of a value. With no contract it keeps the long texts out of the tests' proofs.
fn text<D: Display + Drop>(value: D, heap: Global) -> Result<String, AllocError> {
    value.to_string(heap)
}

const WORKED_DAY: Assessment = Assessment {
    portfolio: 3100,
    flat_rate: 600,
    corporate_action: 100,
    holiday: 1533,
    aggregate: 5373,
    rounded: 5400,
    favourable: 2200,
    requirement: 0,
    net: 3200,
    credited: 2200,
    total: 2250,
    positions: 2,
};

const LONGEST: Holding = Holding {
    kind: Kind::Stock,
    stock: 11,
    market_value: 100_000,
};

const SHORT: Holding = Holding {
    kind: Kind::Dsp,
    stock: 99_999,
    market_value: -20_000_000_000,
};

const SPARE: Holding = Holding {
    kind: Kind::Stock,
    stock: 0,
    market_value: 0,
};

fn assessment(form: Form, heap: Global) -> Result<String, AllocError> {
    let figures = WORKED_DAY;
    let holdings = [SHORT, LONGEST, SPARE];
    text(
        AssessmentText {
            figures: &figures,
            holdings: &holdings,
            form,
        },
        heap,
    )
}

#[test]
fn assessment_for_scripts(rt: HostRuntime) -> Result<(), Fail> {
    assert_eq!(rt;
        assessment(Form::Csv, rt.alloc())?.as_str(),
        "portfolio,3100
flat_rate,600
corporate_action,100
holiday,1533
aggregate,5373
rounded,5400
favourable,2200
requirement,0
net,3200
credited,2200
total,2250
positions,2
holding,1,99999,-20000000000
holding,0,11,100000
holding,0,0,0"
    );
    Ok(())
}

#[test]
fn assessment_for_people(rt: HostRuntime) -> Result<(), Fail> {
    assert_eq!(rt;
        assessment(Form::Report, rt.alloc())?.as_str(),
        "Portfolio margin                        3,100
Flat-rate margin                          600
Corporate-action margin                   100
Holiday margin                          1,533
Aggregate                               5,373
Rounded up to the step                  5,400

Favourable mark                         2,200
Mark requirement                            0
Net                                     3,200
After the credit                        2,200
Total                                   2,250
Portfolio positions                         2

Holding             Stock        Market value
DSP entitlement     99999     -20,000,000,000
stock                  11             100,000"
    );
    Ok(())
}

fn answer(
    answer: Result<u32, EntryRefusal>,
    form: Form,
    heap: Global,
) -> Result<String, AllocError> {
    let answer = Answer {
        journal: 2,
        line: 14,
        answer,
    };
    match form {
        Form::Csv => text(CsvAnswer(answer), heap),
        Form::Report => text(AnswerReport(answer), heap),
    }
}

#[test]
fn answers(rt: HostRuntime) -> Result<(), Fail> {
    let heap = rt.alloc();
    assert_eq!(rt;
        answer(Ok(4), Form::Csv, heap)?.as_str(),
        "answer,2,14,ok,4"
    );
    assert_eq!(rt;
        answer(Err(EntryRefusal::Full), Form::Csv, heap)?.as_str(),
        "answer,2,14,refused,26"
    );
    assert_eq!(rt;
        answer(Ok(4), Form::Report, heap)?.as_str(),
        "journal 2, line 14: accepted, live entries now 4"
    );
    assert_eq!(rt;
        answer(Err(EntryRefusal::Cancelled), Form::Report, heap)?.as_str(),
        "journal 2, line 14: question 24: the number is already cancelled"
    );
    Ok(())
}

fn counts(heap: Global) -> Result<String, AllocError> {
    let mut counts = AnswerCounts::new();
    counts.count(&Ok(1));
    counts.count(&Ok(2));
    counts.count(&Err(EntryRefusal::Posted));
    counts.count(&Err(EntryRefusal::Full));
    counts.count(&Err(EntryRefusal::Full));
    text(CountsReport(&counts), heap)
}

#[test]
fn counted_answers(rt: HostRuntime) -> Result<(), Fail> {
    assert_eq!(rt;
        counts(rt.alloc())?.as_str(),
        "Calls accepted                                           2
Refused by question 21, number out of range              0
Refused by question 22, no instrument                    0
Refused by question 23, size out of range                0
Refused by question 24, already cancelled                0
Refused by question 25, already posted                   1
Refused by question 26, table full                       2"
    );
    Ok(())
}

// A refused call for scripts, and for people.
fn refused(why: Refused, heap: Global) -> Result<String, AllocError> {
    let line = CsvRefused(why);
    let report = RefusedReport(why);
    format!(in heap; "{line}; {report}")
}

#[test]
fn refused_calls(rt: HostRuntime) -> Result<(), Fail> {
    let heap = rt.alloc();
    assert_eq!(rt;
        refused(Refused::Rate(RateRefusal::Rate), heap)?.as_str(),
        "refused,9; question 9: the rate is not 0.06 to 1"
    );
    assert_eq!(rt;
        refused(Refused::Opening(OpeningRefusal::Settings), heap)?.as_str(),
        "refused,12; question 12: a setting is out of range"
    );
    let uncovered = AssessmentRefusal::Uncovered {
        kind: Kind::Sri,
        stock: 44,
    };
    assert_eq!(rt;
        refused(Refused::Assessment(uncovered), heap)?.as_str(),
        "refused,31,2,44; question 31: stock 44 has no SRI entitlement"
    );
    assert_eq!(rt;
        refused(Refused::Assessment(AssessmentRefusal::Margin), heap)?.as_str(),
        "refused,33; question 33: portfolio and flat-rate margin together are above 900,000,000"
    );
    Ok(())
}

// What a margin call is asked with, as text.
fn told(call: MarginCall<'_>, heap: Global) -> Result<String, AllocError> {
    let form = match call.form {
        Form::Report => "report",
        Form::Csv => "csv",
    };
    let trace = if call.trace { " traced" } else { "" };
    let settings = call.settings;
    let places = call.places;
    let holdings = call.holdings;
    let mut names = call.journals;
    let first = names.next().unwrap_or("none");
    let second = names.next().unwrap_or("none");
    match call.source {
        Source::File(path) => format!(in heap;
            "{form}{trace} {path} {settings} {places} {holdings} {first} {second}"
        ),
        Source::Rate(rate) => format!(in heap;
            "{form}{trace} {rate} {settings} {places} {holdings} {first} {second}"
        ),
    }
}

// What the words of a command line, with a space between them, ask for, as text.
fn asked(line: &str, heap: Global) -> Result<String, AllocError> {
    let mut words = Vec::new(heap);
    for word in line.split(' ') {
        words.push(String::from_str(heap, word)?)?;
    }
    match Request::from_words(words.as_slice()) {
        Ok(Request::Help) => format!(in heap; "help"),
        Ok(Request::Call(call)) => told(call, heap),
        Err(error) => text(error, heap),
    }
}

#[test]
fn requests(rt: HostRuntime) -> Result<(), Fail> {
    let heap = rt.alloc();
    assert_eq!(rt;
        asked("--rpf f --settings s a", heap)?.as_str(),
        "report f s 4096 10 a none"
    );
    assert_eq!(rt;
        asked(
            "a --csv --settings s b --trace --fallback 0.06 --places 7 --holdings 0",
            heap
        )?
        .as_str(),
        "csv traced 600 s 7 0 a b"
    );
    assert_eq!(rt;
        asked("--fallback -0.06 --settings --csv a", heap)?.as_str(),
        "report 4294967295 --csv 4096 10 a none"
    );
    assert_eq!(rt; asked("--csv --help", heap)?.as_str(), "help");
    Ok(())
}

#[test]
fn wrong_usage(rt: HostRuntime) -> Result<(), Fail> {
    let heap = rt.alloc();
    assert_eq!(rt;
        asked("--help --cvs", heap)?.as_str(),
        "unknown option --cvs"
    );
    assert_eq!(rt;
        asked("a --settings", heap)?.as_str(),
        "--settings has no value"
    );
    assert_eq!(rt;
        asked("--rpf f --settings s a --rpf g", heap)?.as_str(),
        "--rpf is given twice"
    );
    assert_eq!(rt;
        asked("--rpf f --fallback 1 --settings s a", heap)?.as_str(),
        "--rpf and --fallback are both given"
    );
    assert_eq!(rt;
        asked("--settings s a", heap)?.as_str(),
        "neither --rpf nor --fallback is given"
    );
    assert_eq!(rt;
        asked("--rpf f a", heap)?.as_str(),
        "--settings is not given"
    );
    assert_eq!(rt;
        asked("--rpf f --settings s", heap)?.as_str(),
        "no journal is given"
    );
    assert_eq!(rt;
        asked("--fallback 0.06001 --settings s a", heap)?.as_str(),
        "--fallback takes a decimal of at most four places, not 0.06001"
    );
    assert_eq!(rt;
        asked("--rpf f --settings s a --places -1", heap)?.as_str(),
        "--places takes digits, not -1"
    );
    Ok(())
}
