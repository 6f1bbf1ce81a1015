// The head of a row: its stock and its field type.
ghost use Rattle.std.specs.Prelude.{◌≡◌, MatchResult};
ghost use Rattle.parameter_text.specs.Cuts.{cells, line_of};
ghost use Rattle.parameter_text.specs.Integers.{integer};
ghost use Rattle.parameter_text.specs.Questions.{seen_as};
ghost use Rattle.file_rules.specs.Judged.{field_of};
ghost use Rattle.parameter_file.specs.Table.{HeadOf, HeadRead, FaultyHead};

use super::others::both;
use super::terms::RowHead;
use file_rules::FieldType;
use parameter_text::{Cells, IntegerRule, Question, front_line, stock};
use return_source::ScenarioSet;

const FIELD_TYPES: IntegerRule = IntegerRule { low: 1, high: 7 };

// The kind of row that a cell's field type names.
fn field_type(cell: &[u8]) -> Result<FieldType, Question>
    ensures { result ≡ seen_as field_of (integer 1 7 cell.now) }
{
    FIELD_TYPES.number(cell).map(|number| match number {
        1 => FieldType::Returns(ScenarioSet::Historical),
        2 => FieldType::Returns(ScenarioSet::Stress),
        3 => FieldType::FlatRate,
        7 => FieldType::Entitlement,
        _ => FieldType::Unread,
    })
}

// The head at the front of a line, or of a text that goes on after it: or the first question that it fails.
// Put into both its callers: a head that is handed back through memory costs a short row a third of its time.
#[inline(always)]
fn head_of(piece: &[u8]) -> Result<RowHead, Question>
    ensures { MatchResult result (λ h. HeadOf piece.now h.stock h.kind h.cells) (λ q. FaultyHead (cells piece.now) q) }
{
    let mut left = Cells::new(piece);
    let first = left.next().ok_or(Question::Cells)?;
    let second = left.next().ok_or(Question::Cells)?;
    let (stock, kind) = both(stock(first), field_type(second))?;
    // Kept: as a closure for `map` the subtraction has to be shown of any slice, and the search for that gives up.
    let cells = match left.rest() {
        Some(rest) => Some(piece.len() - rest.len()),
        None => None,
    };
    Ok(RowHead { stock, kind, cells })
}

// The head of the row at the front of a text, or the first question that it fails. Nearly every head is found without
// looking for the line's end first; a faulty one, and that of a row of two cells, is judged on the line alone.
pub(crate) fn row_head(text: &[u8]) -> Result<RowHead, Question>
    ensures { MatchResult result (λ h. HeadRead text.now h.stock h.kind h.cells) (λ q. FaultyHead (cells (line_of text.now)) q) }
{
    match head_of(text) {
        Ok(head) if head.cells.is_some() => Ok(head),
        _ => head_of(front_line(text).0),
    }
}
