// What may be wrong with the options of any program.
ghost use Rattle.std.specs.Prelude.{Some};
ghost use Rattle.command_line.specs.Faults.{fault_text};

use std::fmt;

// An option that there is not, or one that is given twice.
#[derive(Clone, Copy)]
pub enum OptionFault<'a> {
    Unknown(&'a str),
    Twice(&'a str),
}

impl fmt::Display for OptionFault<'_> {
    ghost output = { λ e. Some (fault_text e) };

    fn fmt<W: fmt::Write>(&self, f: &mut fmt::Formatter<W>) -> fmt::Result {
        match self {
            OptionFault::Unknown(option) => write!(f, "unknown option {option}"),
            OptionFault::Twice(option) => write!(f, "{option} is given twice"),
        }
    }
}
