// The titles of the columns: two names, and the numbers of the scenarios.
ghost use Rattle.std.specs.Prelude.{◌≡◌, ◌≤◌, length, Ok, Err, MatchResult};
ghost use Rattle.parameter_text.specs.Cuts.{cells as cells_of};
ghost use Rattle.parameter_text.specs.Integers.{stock_cell};
ghost use Rattle.parameter_text.specs.Left.{cells_left, lines_left, text_left};
ghost use Rattle.parameter_heading.specs.Headings.{counts_as, numbered, titled, titles as titles_of};

use super::named::{at_line, is_next};
use super::terms::Fault;
use parameter_text::{Cells, Lines, Question, stock};

// The number of the line that has the titles.
const TITLES: u32 = 13;

// Does a cell write this number without a zero in front?
fn is_number(cell: &[u8], k: u32) -> bool
    ensures { result ≡ counts_as k (stock_cell cell.now) }
{
    stock(cell).is_ok_and(|n| n == k)
}

// Are the cells that are left the numbers from 1 to `count`?
fn are_numbered(mut cells: Cells<'_>, count: u32) -> bool
    ensures { result ≡ numbered 1 count (cells_left cells.entry) }
{
    // Kept: a `for`, for a closure that takes the next cell for each number changes what it captures, and what it takes is not known.
    for k in 0..count {
        let Some(cell) = cells.next() else {
            return false;
        };
        if !is_number(cell, k + 1) {
            return false;
        }
    }
    cells.next().is_none()
}

fn is_titled(line: &[u8], count: u32) -> bool
    ensures { result ≡ titled count (cells_of line.now) }
{
    let mut cells = Cells::new(line);
    is_next(&mut cells, b"InstrumentId")
        && is_next(&mut cells, b"FieldType")
        && are_numbered(cells, count)
}

// Line 13: the titles, with so many numbers.
pub(crate) fn titles(lines: &mut Lines<'_>, count: u32) -> Result<(), Fault>
    ensures { MatchResult result (λ _. (titles_of count (lines_left lines.old) ≡ Ok (lines_left lines.new)) × (length (text_left lines.new) ≤ length (text_left lines.old))) (λ f. titles_of count (lines_left lines.old) ≡ Err f) }
{
    let line = at_line(TITLES, lines.next().ok_or(Question::Presence))?;
    if is_titled(line, count) {
        Ok(())
    } else {
        at_line(TITLES, Err(Question::Name))
    }
}
