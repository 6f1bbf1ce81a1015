// Figures as text: with zeros in front, with places after a point, with separated thousands, and dates.
ghost use Rattle.std.specs.Prelude.{◌≡◌, ◌/◌, ◌^◌, Some, decimal};
ghost use Rattle.std.specs.Fmt.{WritesOnOk};
ghost use Rattle.figures.specs.Figures.{padded, pointed, separated, dollars, iso_date};

use parameter_text::Date;
use std::fmt;

// The last digits of a number, as many as are asked for.
#[derive(Clone, Copy)]
struct Padded {
    number: u64,
    digits: u32,
}

impl fmt::Display for Padded {
    ghost output = { λ x. Some (padded x.digits x.number) };

    fn fmt<W: fmt::Write>(&self, f: &mut fmt::Formatter<W>) -> fmt::Result {
        put_digits(f, self.number, self.digits)
    }
}

// The first digit is written first, so the last one waits for the others.
fn put_digits<W: fmt::Write>(f: &mut fmt::Formatter<W>, number: u64, digits: u32) -> fmt::Result
    ensures { WritesOnOk W.write_str_gives f.old result (padded digits number) f.new }
{
    if digits == 0 {
        return Ok(());
    }
    put_digits(f, number / 10, digits - 1)?;
    let last = number % 10;
    write!(f, "{last}")
}

// A decimal, from its number of units of the last of its places.
#[derive(Clone, Copy)]
pub struct Decimal<const PLACES: u32>(pub u64);

impl<const PLACES: u32> Decimal<PLACES> {
    // The part before the point; a unit of a power of ten above all numbers goes into none.
    pub(crate) fn whole(self) -> u64
        ensures { result ≡ self.entry.0 / 10 ^ PLACES }
    {
        match 10u64.checked_pow(PLACES) {
            Some(one) => self.0 / one,
            None => 0,
        }
    }
}

impl<const PLACES: u32> fmt::Display for Decimal<PLACES> {
    ghost output = { λ x. Some (pointed PLACES x.0) };

    fn fmt<W: fmt::Write>(&self, f: &mut fmt::Formatter<W>) -> fmt::Result {
        let whole = self.whole();
        let part = Padded {
            number: self.0,
            digits: PLACES,
        };
        write!(f, "{whole}.{part}")
    }
}

// A day as year, month and day.
#[derive(Clone, Copy)]
pub struct IsoDate<'a>(pub &'a Date);

impl fmt::Display for IsoDate<'_> {
    ghost output = { λ x. Some (iso_date x.0.now) };

    fn fmt<W: fmt::Write>(&self, f: &mut fmt::Formatter<W>) -> fmt::Result {
        let year = self.0.year;
        let month = Padded {
            number: u64::from(self.0.month),
            digits: 2,
        };
        let day = Padded {
            number: u64::from(self.0.day),
            digits: 2,
        };
        write!(f, "{year}-{month}-{day}")
    }
}

// A number that names something: its digits alone.
#[derive(Clone, Copy)]
pub struct Numeral(pub u32);

impl fmt::Display for Numeral {
    ghost output = { λ x. Some (decimal x.0) };

    fn fmt<W: fmt::Write>(&self, f: &mut fmt::Formatter<W>) -> fmt::Result {
        let number = self.0;
        write!(f, "{number}")
    }
}

// A number with its thousands separated, by as many commas as it needs and at most so many.
#[derive(Clone, Copy)]
struct Separated<const COMMAS: u32>(u64);

impl<const COMMAS: u32> fmt::Display for Separated<COMMAS> {
    ghost output = { λ x. Some (separated COMMAS x.0) };

    fn fmt<W: fmt::Write>(&self, f: &mut fmt::Formatter<W>) -> fmt::Result {
        put_thousands(f, self.0, COMMAS)
    }
}

// A number with its thousands separated.
#[derive(Clone, Copy)]
pub struct Thousands(pub u32);

// A number below 2^32 has ten digits at most.
pub(crate) const MOST_COMMAS: u32 = 3;

impl fmt::Display for Thousands {
    ghost output = { λ x. Some (separated 3 x.0) };

    fn fmt<W: fmt::Write>(&self, f: &mut fmt::Formatter<W>) -> fmt::Result {
        let number = Separated::<MOST_COMMAS>(u64::from(self.0));
        write!(f, "{number}")
    }
}

// Whole dollars with their thousands separated, and a minus in front where they are less than none.
#[derive(Clone, Copy)]
pub struct Dollars(pub i64);

impl fmt::Display for Dollars {
    ghost output = { λ x. Some (dollars x.0) };

    fn fmt<W: fmt::Write>(&self, f: &mut fmt::Formatter<W>) -> fmt::Result {
        let size = Separated::<MOST_SIZE_COMMAS>(self.0.unsigned_abs());
        if self.0 < 0 {
            write!(f, "-{size}")
        } else {
            write!(f, "{size}")
        }
    }
}

// A size below 2^64 has twenty digits at most.
pub(crate) const MOST_SIZE_COMMAS: u32 = 6;

fn put_thousands<W: fmt::Write>(f: &mut fmt::Formatter<W>, number: u64, commas: u32) -> fmt::Result
    ensures { WritesOnOk W.write_str_gives f.old result (separated commas number) f.new }
{
    if commas == 0 || number < 1000 {
        return write!(f, "{number}");
    }
    put_thousands(f, number / 1000, commas - 1)?;
    let last = Padded { number, digits: 3 };
    write!(f, ",{last}")
}
