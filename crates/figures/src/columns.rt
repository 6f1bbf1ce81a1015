// Figures at the right of a column.
ghost use Rattle.std.specs.Prelude.{◌≡◌, ◌+◌, ◌*◌, ◌≤◌, length, Some, decimal};
ghost use Rattle.std.specs.Fmt.{WritesOnOk};
ghost use Rattle.figures.specs.Figures.{separated};
ghost use Rattle.figures.specs.Columns.{Long, at_right, count_cell, spaces};

use super::numbers::{
    Decimal, Dollars, IsoDate, MOST_COMMAS, MOST_SIZE_COMMAS, Numeral, Thousands,
};
use std::fmt;

// A value that knows how long its text is: a width in a format string reaches only the types of `std`.
pub trait Measured: fmt::Display {
    // How many bytes the text has.
    fn length(&self) -> usize
        ensures { Long result (Self.Display.output self.now) };
}

// A value at the right of its column, or as it is where it is wider.
// Kept: the width is a field, since a constant parameter takes no width that is known only as a program runs.
#[derive(Clone, Copy)]
pub struct Column<T> {
    pub width: usize,
    pub value: T,
}

impl<T: Measured> fmt::Display for Column<T> {
    ghost output = { λ x. at_right x.width (T.Display.output x.value) };

    fn fmt<W: fmt::Write>(&self, f: &mut fmt::Formatter<W>) -> fmt::Result {
        let value = &self.value;
        put_spaces(f, self.width.saturating_sub(value.length()))?;
        write!(f, "{value}")
    }
}

fn put_spaces<W: fmt::Write>(f: &mut fmt::Formatter<W>, count: usize) -> fmt::Result
    ensures { WritesOnOk W.write_str_gives f.old result (spaces count) f.new }
{
    if count == 0 {
        return Ok(());
    }
    put_spaces(f, count - 1)?;
    write!(f, " ")
}

impl<const PLACES: u32> Measured for Decimal<PLACES> {
    fn length(&self) -> usize {
        let point = 1;
        decimal_length(self.whole()) + point + PLACES as usize
    }
}

impl Measured for IsoDate<'_> {
    fn length(&self) -> usize {
        let month_and_day = 6;
        decimal_length(u64::from(self.0.year)) + month_and_day
    }
}

impl Measured for Numeral {
    fn length(&self) -> usize {
        decimal_length(u64::from(self.0))
    }
}

impl Measured for Thousands {
    fn length(&self) -> usize {
        thousands_length(u64::from(self.0), MOST_COMMAS)
    }
}

impl Measured for Dollars {
    fn length(&self) -> usize {
        let digits_and_commas = thousands_length(self.0.unsigned_abs(), MOST_SIZE_COMMAS);
        if self.0 < 0 {
            digits_and_commas + 1
        } else {
            digits_and_commas
        }
    }
}

fn decimal_length(number: u64) -> usize
    ensures value { result ≡ length (decimal number) }
    ensures bound { result ≤ 20 }
{
    if number < 10 {
        return 1;
    }
    decimal_length(number / 10) + 1
}

fn thousands_length(number: u64, commas: u32) -> usize
    ensures value { result ≡ length (separated commas number) }
    ensures bound { result ≤ 20 + 4 * commas }
{
    if commas == 0 || number < 1000 {
        return decimal_length(number);
    }
    let comma_and_digits = 4;
    thousands_length(number / 1000, commas - 1) + comma_and_digits
}

// Wide enough for a count below 2^32.
const COUNT_WIDTH: usize = 14;

// A count at the right of a column of fourteen places, its thousands separated.
// Kept: the counts of both programs need no width at each, and the definition of a cell stays closed in their proofs.
#[derive(Clone, Copy)]
pub struct CountCell(pub u32);

impl fmt::Display for CountCell {
    ghost output = { λ x. Some (count_cell x.0) };

    #[tactic(auto, unfolding(crate::specs::Columns::count_cell))]
    fn fmt<W: fmt::Write>(&self, f: &mut fmt::Formatter<W>) -> fmt::Result {
        let cell = Column {
            width: COUNT_WIDTH,
            value: Thousands(self.0),
        };
        write!(f, "{cell}")
    }
}
