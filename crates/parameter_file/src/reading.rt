// All rows of a text, one after the other.
ghost use Rattle.std.specs.Prelude.{◌≡◌, ◌+◌, ◌≤◌, [], length, vec_len, vec_capacity};
ghost use Rattle.file_rules.specs.Judged.{stock_places, row_at};
ghost use Rattle.parameter_file.specs.Table.{Blank};
ghost use Rattle.parameter_file.specs.Reading.{TakesRow, TakesRows};

use super::file::Memory;
use super::rule::RowRule;
use super::terms::StockRows;
use parameter_heading::Fault;
use parameter_text::Question;

// The first line after the heading.
const FIRST_ROW: u32 = 14;

// Stocks are 1 to 99,999, and each has a place at its number.
pub(crate) const STOCK_PLACES: usize = 100_000;

// What was judged on a line: its question becomes the line's fault.
fn at_line<X: Drop>(judged: Result<X, Question>, line: u32) -> Result<X, Fault>
    ensures { result ≡ row_at line judged }
{
    judged.map_err(|question| Fault { question, line })
}

impl Memory {
    // Empties the memory: no returns are kept, and no stock has rows.
    fn clear(&mut self)
        ensures kept { self.new.kept.items ≡ [] }
        ensures places { length self.new.table.items ≡ stock_places }
        ensures blank { Blank self.new.table.items }
        ensures length { self.new.length ≡ self.old.length }
    {
        self.kept.clear();
        self.table.clear();
        let _ = self.table.resize(STOCK_PLACES, StockRows::default());
    }

    // One row from the front of a text: where the next line starts, or the first question that its line fails.
    fn take_row(&mut self, rule: &RowRule, text: &[u8], line: u32) -> Result<usize, Question>
        requires room { vec_len self.old.kept + 4000 ≤ vec_capacity self.old.kept }
        requires places { length self.old.table.items ≡ stock_places }
        ensures row { TakesRow rule.now.parameters text.now line self.old.kept.items self.new.kept.items self.old.table.items self.new.table.items result }
        ensures room { vec_capacity self.old.kept ≤ vec_capacity self.new.kept }
        ensures places { length self.new.table.items ≡ stock_places }
        ensures length { self.new.length ≡ self.old.length }
    {
        let start = self.kept.len();
        let row = rule.read_row(text, &mut self.kept)?;
        let place = row.stock as usize;
        let rows = self.table[place];
        if rows.has(row.found) {
            return Err(Question::First);
        }
        self.table[place] = rows.with(row.found, start, line);
        Ok(row.next)
    }

    // All rows of a text: its returns are then kept, and the table says what the rows say of each stock; or the first fault.
    pub(crate) fn take_rows(&mut self, rule: &RowRule, text: &[u8]) -> Result<(), Fault>
        requires { length text.now ≤ self.old.length }
        ensures rows { TakesRows rule.now.parameters text.now self.new.kept.items self.new.table.items result }
        ensures places { length self.new.table.items ≡ stock_places }
        ensures length { self.new.length ≡ self.old.length }
    {
        self.clear();
        let mut at: usize = 0;
        let mut line = FIRST_ROW;
        // Kept: where a row ends is known only once it is read into the memory, so no iterator can give the rows.
        while at < text.len() {
            at += at_line(self.take_row(rule, &text[at..], line), line)?;
            line += 1;
        }
        Ok(())
    }
}
