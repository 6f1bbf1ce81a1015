// A line of the heading: a name and a value.
ghost use Rattle.std.specs.Prelude.{◌≡◌, drop, Ok};
ghost use Rattle.parameter_text.specs.Questions.{seen_as};
ghost use Rattle.parameter_text.specs.Cuts.{cells as cells_of};
ghost use Rattle.parameter_text.specs.Left.{cells_left};
ghost use Rattle.parameter_heading.specs.Lines.{at_line as judged_at, first_is, one_cell, value_after, valued_line};
ghost use Rattle.parameter_heading.specs.Taking.{Takes};

use super::readings::Reading;
use super::terms::Fault;
use parameter_text::{Cells, Lines, Question};

// Takes the next cell: is there one, and does it have this text?
pub(crate) fn is_next(cells: &mut Cells<'_>, text: &[u8]) -> bool
    ensures first { result ≡ first_is text.now (cells_left cells.old) }
    ensures rest { cells_left cells.new ≡ drop 1 (cells_left cells.old) }
{
    cells.next().is_some_and(|cell| cell == text)
}

// The only cell that is left.
fn only_cell(mut cells: Cells<'_>) -> Result<&[u8], Question>
    ensures { seen_as (λ x. x.now) result ≡ one_cell (cells_left cells.entry) }
{
    let cell = cells.next().ok_or(Question::Cells)?;
    match cells.next() {
        None => Ok(cell),
        Some(_) => Err(Question::Cells),
    }
}

// The value of a line that has this name.
fn value_of<'a>(line: &'a [u8], name: &[u8]) -> Result<&'a [u8], Question>
    ensures { seen_as (λ x. x.now) result ≡ value_after name.now (cells_of line.now) }
{
    let mut cells = Cells::new(line);
    if is_next(&mut cells, name) {
        only_cell(cells)
    } else {
        Err(Question::Name)
    }
}

// A judgement of a line, whose question becomes the file's fault.
pub(crate) fn at_line<T>(number: u32, judged: Result<T, Question>) -> Result<T, Fault>
    ensures { result ≡ judged_at number judged }
{
    judged.map_err(|question| Fault {
        question,
        line: number,
    })
}

// The value of the next line, which has this number in the file and should have this name.
fn next_value<'a>(lines: &mut Lines<'a>, number: u32, name: &[u8]) -> Result<&'a [u8], Fault>
    ensures { Takes (valued_line number name.now Ok) lines.old (seen_as (λ x. x.now) result) lines.new }
{
    let line = at_line(number, lines.next().ok_or(Question::Presence))?;
    at_line(number, value_of(line, name))
}

// What the next line is worth.
pub(crate) fn next_reading<R: Reading>(
    lines: &mut Lines<'_>,
    number: u32,
    name: &[u8],
    reading: &R,
) -> Result<R::Value, Fault>
    ensures { Takes (valued_line number name.now (R.judged reading.now)) lines.old result lines.new }
{
    let value = next_value(lines, number, name)?;
    at_line(number, reading.read(value))
}
