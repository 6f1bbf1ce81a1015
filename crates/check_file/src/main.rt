// Checks a parameter file, and prints what it holds or why it is refused.
#![tactic(auto)]

use desk::{CsvFault, CsvSummary, FaultReport, Form, Request, SummaryReport};
use figures::InForm;
use parameter_file::{Refusal, examine};
use program::{NotDone, Program};
use std::process::ExitCode;

// The program's name, before what it says on standard error.
const NAME: &str = "check_file";

const USAGE: &str = "\
usage: check_file [--csv] FILE
       check_file --help";

const HELP: &str = "\
Checks the parameter file FILE, as the clearing house prints it every evening (RPF01), and prints
what it holds. A file that does not pass is refused: the first question that it fails, and the line.

  --csv     print lines for scripts in place of the report for people:
            'checked' and then a name and a value on each line, or 'refused,QUESTION,LINE'
  --help    print this text

Options may stand before or behind the file. A file whose name begins with a dash is given as ./-NAME.
The exit status is 0, or 1 where the file is refused or could not be checked.

example:  check_file --csv samples/worked_day.csv
prints    checked
          valuation_date,2023-05-02
          hvar_weight,0.7500
          and so on; a weight of 2 on line 2 would give refused,6,2";

// A check takes files of up to 64 MiB, so one byte more shows that a file is longer.
const MOST_BYTES: u64 = 67_108_864 + 1;

fn main(rt: HostRuntime) -> ExitCode {
    let program = Program {
        rt: &rt,
        name: NAME,
    };
    match run(&program) {
        Ok(()) => ExitCode::SUCCESS,
        Err(NotDone) => ExitCode::FAILURE,
    }
}

// Does what the arguments ask for.
fn run(program: &Program<'_>) -> Result<(), NotDone> {
    let words = program.arguments()?;
    let request = Request::from_words(words.as_slice()).map_err(|error| program.not_done(
        format_args!("{error}\n{USAGE}"),
    ))?;
    match request {
        Request::Help => program.print(format_args!("{USAGE}\n\n{HELP}")),
        Request::Check { form, path } => check(program, form, path),
    }
}

fn check(program: &Program<'_>, form: Form, path: &str) -> Result<(), NotDone> {
    let bytes = program.front_of(path, MOST_BYTES)?;
    match examine(bytes.as_slice(), program.rt.alloc()) {
        Ok(summary) => program.print(InForm {
            form,
            report: SummaryReport(&summary),
            csv: CsvSummary(&summary),
        }),
        Err(Refusal::Fault(fault)) => {
            program.print(InForm {
                form,
                report: FaultReport(&fault),
                csv: CsvFault(&fault),
            })?;
            Err(NotDone)
        }
        Err(Refusal::Memory) => Err(program.not_done(format_args!("{path}: not enough memory"))),
    }
}
