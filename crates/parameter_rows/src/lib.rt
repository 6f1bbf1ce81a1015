// The rows of a parameter file: a row of returns.
#![tactic(auto)]

mod judged;
mod usual;

ghost use Rattle.std.specs.Prelude.{◌≡◌, ◌≤◌, length, drop, IfOk};
ghost use Rattle.parameter_text.specs.Cuts.{cells, line_of, after_line};
ghost use Rattle.parameter_rows.specs.Returns.{returns_cells, ReturnsPass, Agrees};

use judged::judged_row;
use parameter_text::Question;
use usual::usual_row;

// The largest return, in hundred-millionths: 4.
const LARGEST_RETURN: u32 = 400_000_000;

// A row of returns from the front of `text`: where the next line starts, or the first question that the line fails.
// The row then has its returns in hundred-millionths; after a refusal nothing is said of what it has.
// Nearly every row has the usual spelling and is read in one pass; any other line is judged question by question.
pub fn returns_row(text: &[u8], row: &mut [i32]) -> Result<usize, Question>
    ensures judged { Agrees (returns_cells (length row.old) (cells (line_of text.now))) result row.new }
    ensures next { IfOk result (λ next. (drop next text.now ≡ after_line text.now) × (next ≤ length text.now)) }
    ensures law { ReturnsPass }
{
    match usual_row(text, row) {
        Some(next) => Ok(next),
        None => judged_row(text, row),
    }
}

#[cfg(test)]
mod tests;
