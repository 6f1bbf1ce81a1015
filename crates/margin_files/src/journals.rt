// A journal: one call upon an account on each line.
ghost use Rattle.std.specs.Prelude.{◌≡◌, Some, None, MatchOption};
ghost use Rattle.std.specs.Iterator.{YieldsFirst, item_count};
ghost use Rattle.parameter_text.specs.Cuts.{lines as lines_of};
ghost use Rattle.parameter_text.specs.Left.{cells_left};
ghost use Rattle.margin_files.specs.Wholes.{first_whole};
ghost use Rattle.margin_files.specs.Journals.{posting_of, posting_in, cancelled_in, call_of_line, calls_of, calls_left, journal_check};

use super::numbers::{in_u32, whole_number};
use super::terms::{FormFault, JournalCall};
use ledger::Posting;
use parameter_text::{Cells, Lines};

// The whole number in the next cell.
fn next_whole(cells: &mut Cells<'_>) -> Option<i64>
    ensures { MatchOption result (first_whole (cells_left cells.old) ≡ None) (λ z. first_whole (cells_left cells.old) ≡ Some (z, cells_left cells.new)) }
{
    whole_number(cells.next()?)
}

// The entry that six whole numbers make.
fn entry(numbers: [i64; 6]) -> Posting
    ensures { Some result ≡ posting_of numbers }
{
    let [number, kind, stock, quantity, contract_value, market_value] = numbers;
    Posting {
        number: in_u32(number),
        kind: in_u32(kind),
        stock: in_u32(stock),
        quantity,
        contract_value,
        market_value,
    }
}

// The entry that the cells behind `post` write.
fn posting(mut cells: Cells<'_>) -> Option<Posting>
    ensures { result ≡ posting_in (cells_left cells.entry) }
{
    let number = next_whole(&mut cells)?;
    let kind = next_whole(&mut cells)?;
    let stock = next_whole(&mut cells)?;
    let quantity = next_whole(&mut cells)?;
    let contract_value = next_whole(&mut cells)?;
    let market_value = next_whole(&mut cells)?;
    let numbers = [number, kind, stock, quantity, contract_value, market_value];
    cells.next().is_none().then_some(entry(numbers))
}

// The number that the cells behind `cancel` write.
fn cancelled(mut cells: Cells<'_>) -> Option<u32>
    ensures { result ≡ cancelled_in (cells_left cells.entry) }
{
    let number = next_whole(&mut cells)?;
    cells.next().is_none().then_some(in_u32(number))
}

// The call that a line writes.
#[tactic(auto, unfolding(crate::specs::Journals::call_of_line))]
fn call(line: &[u8]) -> Option<JournalCall>
    ensures { result ≡ call_of_line line.now }
{
    let mut cells = Cells::new(line);
    match cells.next()? {
        b"post" => posting(cells).map(JournalCall::Post),
        b"cancel" => cancelled(cells).map(|number| JournalCall::Cancel { number }),
        _ => None,
    }
}

// How many calls a journal has, or its first line that is none. A journal is checked whole before any of its calls is made.
#[tactic(auto, using(crate::proofs::JournalSteps::counted_more, crate::proofs::JournalSteps::first_faulty, crate::proofs::JournalSteps::all_calls))]
pub fn check_journal(text: &[u8]) -> Result<usize, FormFault>
    ensures { result ≡ journal_check (lines_of text.now) }
{
    let mut count = 0;
    for (before, line) in Lines::new(text).enumerate() {
        if call(line).is_none() {
            return Err(FormFault { line: before + 1 });
        }
        count = before + 1;
    }
    Ok(count)
}

// The calls of a journal that are still to come: all of them where the journal passed its check, else those before its first
// line that is none.
#[derive(Clone, Copy)]
pub struct Calls<'a> {
    lines: Lines<'a>,
}

impl<'a> Calls<'a> {
    // All calls of a journal.
    pub fn new(text: &'a [u8]) -> Calls<'a>
        ensures { calls_left result ≡ calls_of (lines_of text.now) }
    {
        Calls {
            lines: Lines::new(text),
        }
    }
}

// Gives the calls one after the other. Once all were given there is none, and from then on there is none.
impl Iterator for Calls<'_> {
    type Item = JournalCall;

    ghost next_gives = { YieldsFirst calls_left };

    ghost remaining = { item_count calls_left };

    fn next(&mut self) -> Option<JournalCall> {
        let call = self.lines.next().and_then(call);
        if call.is_none() {
            self.lines = Lines::new(b"");
        }
        call
    }
}
