// Rows of returns in any spelling, judged question by question: what decides where the usual spelling is not found.
ghost use Rattle.std.specs.Prelude.{◌≡◌, ℕ, ◌≤◌, length, drop, IfOk};
ghost use Rattle.parameter_text.specs.Cuts.{cells as cells_of, line_of, after_line};
ghost use Rattle.parameter_text.specs.Left.{cells_left};
ghost use Rattle.parameter_rows.specs.Returns.{return_cell, returns_cells, ReturnsPass, Agrees};
ghost use Rattle.parameter_rows.specs.Asking.{sooner_failed, asked};

use super::LARGEST_RETURN;
use parameter_text::{Cells, DecimalRule, Places, Question, front_line};

// What a return may be, in hundred-millionths.
const RETURN: DecimalRule = DecimalRule {
    places: Places::Eight,
    low: -(LARGEST_RETURN as i64),
    high: LARGEST_RETURN as i64,
};

// The return that a cell spells, or the question that the cell fails.
fn return_value(cell: &[u8]) -> Result<i32, Question>
    ensures { result ≡ return_cell cell.now }
{
    let v = RETURN.value(cell)?;
    Ok(v as i32)
}

// The first of the question that failed so far, if any, and of one more.
fn first_failed(failed: Option<Question>, q: Question) -> Question
    ensures { result ≡ sooner_failed failed q }
{
    failed.map_or(q, |p| p.sooner(q))
}

// Judges as many cells as the row has places: the first question that one of them fails, or that there are fewer cells.
fn needed(cells: &mut Cells<'_>, row: &mut [i32]) -> Result<(), Question>
    ensures judged { Agrees (asked (length row.old) (cells_left cells.old)) result row.new }
    ensures rest { cells_left cells.new ≡ drop (length row.old) (cells_left cells.old) }
{
    let mut failed = None;
    for value in row.iter_mut() {
        let cell = cells.next().ok_or(Question::Cells)?;
        match return_value(cell) {
            Ok(v) => *value = v,
            Err(q) => failed = Some(first_failed(failed, q)),
        }
    }
    match failed {
        None => Ok(()),
        Some(q) => Err(q),
    }
}

// Judges a line as a row of returns. The cells are counted before any is asked for its form.
fn judged_line(line: &[u8], row: &mut [i32]) -> Result<(), Question>
    ensures { Agrees (returns_cells (length row.old) (cells_of line.now)) result row.new }
{
    let mut cells = Cells::new(line);
    let judged = needed(&mut cells, row);
    if cells.are_empty() {
        judged
    } else {
        Err(Question::Cells)
    }
}

// A row of returns from the front of `text`: where the next line starts, or the first question that the line fails.
// Apart from the code around it: within a larger function its loops over bytes keep their places in memory.
#[inline(never)]
pub(crate) fn judged_row(text: &[u8], row: &mut [i32]) -> Result<usize, Question>
    ensures judged { (n : ℕ) → n ≡ length row.old → Agrees (returns_cells n (cells_of (line_of text.now))) result row.new }
    ensures next { IfOk result (λ next. (drop next text.now ≡ after_line text.now) × (next ≤ length text.now)) }
    ensures law { ReturnsPass }
{
    let (line, next) = front_line(text);
    judged_line(line, row)?;
    Ok(next)
}
