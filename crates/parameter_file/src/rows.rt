// One row from the front of a text.
ghost use Rattle.std.specs.Prelude.{◌≡◌, ◌+◌, ◌≤◌, [], vec_len, vec_capacity};
ghost use Rattle.parameter_text.specs.Cuts.{cells, line_of};
ghost use Rattle.file_rules.specs.Judged.{content};
ghost use Rattle.parameter_text.specs.Left.{cells_left};
ghost use Rattle.parameter_text.specs.Questions.{seen_as};
ghost use Rattle.parameter_file.specs.declared.terms.Found.{Found as TheFound};
ghost use Rattle.parameter_file.specs.Table.{held, other_content, KeptReturns, ReadCells, ReadRow};

use super::heads::row_head;
use super::others::{entitlement, flat_rate};
use super::rule::RowRule;
use super::terms::{Found, FoundCells, FoundRow};
use file_rules::FieldType;
use parameter_rows::returns_row;
use parameter_text::{Cells, Question, front_line};

// Kept: room for a row is there between rows and not while one is kept, so no type can carry it, and each part asks for it.

// Keeps n returns from the front of a text after those kept already: where the next line starts.
fn keep_returns(text: &[u8], n: usize, kept: &mut Vec<i32>) -> Result<usize, Question>
    requires room { vec_len kept.old + n ≤ vec_capacity kept.old }
    requires some { 1 ≤ n }
    ensures kept { KeptReturns n text.now kept.old.items kept.new.items result }
    ensures room { vec_capacity kept.old ≤ vec_capacity kept.new }
{
    let start = kept.len();
    let _ = kept.resize(start + n, 0);
    let row = kept.as_mut_slice();
    returns_row(text, &mut row[start..])
}

// The cells of a row that holds no returns.
fn other_cells(kind: FieldType, cells: Cells<'_>) -> Result<Found, Question>
    ensures { seen_as (λ (f : TheFound). held f []) result ≡ other_content kind (cells_left cells.entry) }
{
    match kind {
        FieldType::FlatRate => flat_rate(cells),
        FieldType::Entitlement => entitlement(cells),
        FieldType::Returns(_) | FieldType::Unread => Ok(Found::Unread),
    }
}

impl RowRule {
    // The cells after a row's head, from the front of a text.
    fn read_cells(
        &self,
        kind: FieldType,
        text: &[u8],
        kept: &mut Vec<i32>,
    ) -> Result<FoundCells, Question>
        requires room { vec_len kept.old + 4000 ≤ vec_capacity kept.old }
        ensures cells { ReadCells (content self.now.parameters kind (cells (line_of text.now))) text.now kept.old.items kept.new.items result }
        ensures room { vec_capacity kept.old ≤ vec_capacity kept.new }
    {
        if let FieldType::Returns(set) = kind {
            let next = keep_returns(text, self.count(set), kept)?;
            return Ok(FoundCells {
                found: Found::Returns(set),
                next,
            });
        }
        let (line, next) = front_line(text);
        let found = other_cells(kind, Cells::new(line))?;
        Ok(FoundCells { found, next })
    }

    // A row from the front of a text, or the first question that its line fails. Its returns are kept after those kept
    // already.
    pub(crate) fn read_row(&self, text: &[u8], kept: &mut Vec<i32>) -> Result<FoundRow, Question>
        requires room { vec_len kept.old + 4000 ≤ vec_capacity kept.old }
        ensures row { ReadRow self.now.parameters text.now kept.old.items kept.new.items result }
        ensures room { vec_capacity kept.old ≤ vec_capacity kept.new }
    {
        let head = row_head(text)?;
        match (head.cells, head.kind) {
            (Some(start), kind) => {
                let rest = self.read_cells(kind, &text[start..], kept)?;
                Ok(FoundRow {
                    stock: head.stock,
                    found: rest.found,
                    next: start + rest.next,
                })
            }
            (None, FieldType::Unread) => Ok(FoundRow {
                stock: head.stock,
                found: Found::Unread,
                next: front_line(text).1,
            }),
            (None, _) => Err(Question::Cells),
        }
    }
}
