// The text of each answer, and each outcome of reading the arguments.
use super::{CsvFault, CsvSummary, FaultReport, Form, Request, SummaryReport};
use parameter_file::Summary;
use parameter_heading::{Fault, Heading, Level};
use parameter_text::{Date, Question};
use return_source::{Parameters, Scenarios, Weight};
use std::alloc::{AllocError, Global};
use std::fmt::Display;
use std::test::Fail;

// The worked day, with some figures above a thousand where they are wanted.
fn worked_day(step: u32, scenarios: u32, stocks: u32) -> Summary {
    let level = Level {
        ten_thousandths: 5000,
    };
    let historical = Scenarios {
        weight: Weight {
            ten_thousandths: 7500,
        },
        count: scenarios,
        tail: 2,
    };
    let stress = Scenarios {
        weight: Weight {
            ten_thousandths: 2500,
        },
        count: 5,
        tail: 2,
    };
    let heading = Heading {
        date: Date {
            day: 2,
            month: 5,
            year: 2023,
        },
        historical_level: level,
        stress_level: level,
        parameters: Parameters {
            historical,
            stress,
            step,
            holiday_factor: 4_142_135_623,
        },
    };
    Summary {
        heading,
        portfolio_stocks: stocks,
        flat_stocks: 1,
        entitlements: 1,
    }
}

#[test]
fn summary_for_scripts(rt: HostRuntime) -> Result<(), Fail> {
    let summary = worked_day(100, 4, 2);
    assert_eq!(rt;
        text(CsvSummary(&summary), rt.alloc())?.as_str(),
        "checked
valuation_date,2023-05-02
hvar_weight,0.7500
svar_weight,0.2500
hvar_scenarios,4
svar_scenarios,5
hvar_tail,2
svar_tail,2
step,100
holiday_factor,0.4142135623
portfolio_stocks,2
flat_stocks,1
entitlements,1"
    );
    Ok(())
}

#[test]
fn summary_for_people(rt: HostRuntime) -> Result<(), Fail> {
    let summary = worked_day(1_000_000, 4000, 99_999);
    assert_eq!(rt;
        text(SummaryReport(&summary), rt.alloc())?.as_str(),
        "The file passes.

Valuation date        2023-05-02

                      historical        stress
Weight                    0.7500        0.2500
Scenarios                  4,000             5
Tail                           2             2

Step in dollars        1,000,000
Holiday factor      0.4142135623

Portfolio stocks          99,999
Flat-rate stocks               1
Entitlements                   1"
    );
    Ok(())
}

#[test]
fn refusals(rt: HostRuntime) -> Result<(), Fail> {
    let heap = rt.alloc();
    let fault = Fault {
        question: Question::Range,
        line: 14,
    };
    assert_eq!(rt; text(CsvFault(&fault), heap)?.as_str(), "refused,6,14");
    assert_eq!(rt;
        text(FaultReport(&fault), heap)?.as_str(),
        "question 6, line 14: a value is out of range or has too many places"
    );
    let whole = Fault {
        question: Question::Length,
        line: 0,
    };
    assert_eq!(rt;
        text(FaultReport(&whole), heap)?.as_str(),
        "question 1, line 0: the file is empty or longer than 67,108,864 bytes"
    );
    Ok(())
}

// What is printed of a value. With no contract it keeps the long texts out of the tests' proofs.
fn text<D: Display + Drop>(value: D, heap: Global) -> Result<String, AllocError> {
    value.to_string(heap)
}

// What the words of a command line, with a space between them, ask for, as text.
fn asked(line: &str, heap: Global) -> Result<String, AllocError> {
    let mut words = Vec::new(heap);
    for word in line.split(' ') {
        words.push(String::from_str(heap, word)?)?;
    }
    match Request::from_words(words.as_slice()) {
        Ok(Request::Help) => format!(in heap; "help"),
        Ok(
            Request::Check {
                form: Form::Report,
                path,
            },
        ) => format!(in heap; "report {path}"),
        Ok(
            Request::Check {
                form: Form::Csv,
                path,
            },
        ) => format!(in heap; "csv {path}"),
        Err(error) => text(error, heap),
    }
}

#[test]
fn requests(rt: HostRuntime) -> Result<(), Fail> {
    let heap = rt.alloc();
    assert_eq!(rt; asked("day.csv", heap)?.as_str(), "report day.csv");
    assert_eq!(rt; asked("--csv day.csv", heap)?.as_str(), "csv day.csv");
    assert_eq!(rt; asked("day.csv --csv", heap)?.as_str(), "csv day.csv");
    assert_eq!(rt; asked("--csv --help", heap)?.as_str(), "help");
    Ok(())
}

#[test]
fn wrong_usage(rt: HostRuntime) -> Result<(), Fail> {
    let heap = rt.alloc();
    assert_eq!(rt;
        asked("--cvs day.csv", heap)?.as_str(),
        "unknown option --cvs"
    );
    assert_eq!(rt;
        asked("--csv day.csv --csv", heap)?.as_str(),
        "--csv is given twice"
    );
    assert_eq!(rt;
        asked("day.csv night.csv", heap)?.as_str(),
        "more than one file is given"
    );
    assert_eq!(rt; asked("--csv", heap)?.as_str(), "no file is given");
    Ok(())
}
