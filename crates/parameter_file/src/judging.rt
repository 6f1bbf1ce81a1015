// A whole file, judged into memory that is there already.
ghost use Rattle.std.specs.Prelude.{◌≡◌, ◌≤◌, min, length};
ghost use Rattle.parameter_heading.specs.Laid.{TailFigures};
ghost use Rattle.file_rules.specs.Judged.{most_bytes};
ghost use Rattle.file_rules.specs.Laid.{FilesPass};
ghost use Rattle.parameter_file.specs.Checked.{JudgedFile};

use super::file::Memory;
use super::rule::RowRule;
use super::table::earliest_fault;
use parameter_heading::{Fault, Heading, heading};
use parameter_text::Question;

// The greatest length of a file.
pub(crate) const MOST_BYTES: usize = 67_108_864;

impl Memory {
    // The heading of a file that passes, whose rows are then kept; or its first fault.
    pub(crate) fn judge(&mut self, bytes: &[u8]) -> Result<Heading, Fault>
        requires { min (length bytes.now) most_bytes ≤ self.old.length }
        ensures file { JudgedFile bytes.now self.new.kept.items self.new.table.items result }
        ensures length { self.new.length ≡ self.old.length }
        ensures law { FilesPass }
        ensures figures { TailFigures }
    {
        if bytes.is_empty() || bytes.len() > MOST_BYTES {
            return Err(Fault {
                question: Question::Length,
                line: 0,
            });
        }
        let (head, text) = heading(bytes)?;
        let rule = RowRule {
            parameters: head.parameters,
        };
        self.take_rows(&rule, text)?;
        match earliest_fault(self.table.as_slice()) {
            Some(line) => Err(Fault {
                question: Question::Tier,
                line,
            }),
            None => Ok(head),
        }
    }
}
