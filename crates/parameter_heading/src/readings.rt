// What the value of a line may be: a day, an integer, a weight, a level or a factor.
ghost use Rattle.std.specs.Prelude.{◌≡◌, ◌-◌, ◌*◌, ◌≤◌};
ghost use Rattle.parameter_text.specs.Dates.{date_cell};
ghost use Rattle.parameter_text.specs.Integers.{integer};
ghost use Rattle.parameter_heading.specs.Lines.{Judgement};
ghost use Rattle.parameter_heading.specs.Headings.{share_cell, weight_left, other_weight, tail_count, with_tail, level_cell, factor_cell};

use parameter_text::{Date, DecimalRule, IntegerRule, Places, Question, date};

// A share of the whole, in ten-thousandths.
const SHARE: DecimalRule = DecimalRule {
    places: Places::Four,
    low: 0,
    high: 10_000,
};

// A factor from 0 to 1, in ten-billionths.
const FACTOR: DecimalRule = DecimalRule {
    places: Places::Ten,
    low: 0,
    high: 10_000_000_000,
};

// The whole, in ten-thousandths.
const WHOLE: u64 = 10_000;

// The most scenarios that a tail may have.
const LONGEST_TAIL: u32 = 100;

// How the value of a line is judged.
pub(crate) trait Reading {
    type Value;

    ghost judged: { Self → Judgement Self.Value };

    fn read(&self, cell: &[u8]) -> Result<Self::Value, Question>
        ensures { result ≡ judged self.now cell.now };
}

// A day of the calendar.
#[derive(Drop)]
pub(crate) struct Day;

impl Reading for Day {
    type Value = Date;

    ghost judged = { λ _. date_cell };

    fn read(&self, cell: &[u8]) -> Result<Date, Question> {
        date(cell)
    }
}

impl Reading for IntegerRule {
    type Value = u32;

    ghost judged = { λ s. integer s.low s.high };

    fn read(&self, cell: &[u8]) -> Result<u32, Question> {
        self.number(cell)
    }
}

// No share is below 0, so its size is its value.
fn share(cell: &[u8]) -> Result<u32, Question>
    ensures { result ≡ share_cell cell.now }
{
    let share = SHARE.value(cell)?;
    Ok(share.unsigned_abs() as u32)
}

// The weight of the historical scenarios.
#[derive(Drop)]
pub(crate) struct HistoricalWeight;

impl Reading for HistoricalWeight {
    type Value = u32;

    ghost judged = { λ _. share_cell };

    fn read(&self, cell: &[u8]) -> Result<u32, Question> {
        share(cell)
    }
}

// The stress weight, if it makes the whole. The sum is taken in 64 bits, where it cannot overflow.
fn rest_of_weight(historical: u32, stress: u32) -> Result<u32, Question>
    ensures { result ≡ weight_left historical stress }
{
    if u64::from(historical) + u64::from(stress) == WHOLE {
        Ok(stress)
    } else {
        Err(Question::Range)
    }
}

// The weight of the stress scenarios, which together with the historical one makes the whole.
#[derive(Drop)]
pub(crate) struct StressWeight {
    pub(crate) historical: u32,
}

impl Reading for StressWeight {
    type Value = u32;

    ghost judged = { λ s. other_weight s.historical };

    fn read(&self, cell: &[u8]) -> Result<u32, Question> {
        let stress = share(cell)?;
        rest_of_weight(self.historical, stress)
    }
}

// What a level leaves of so many scenarios, in ten-thousandths of one, and in 64 bits, where no product overflows.
fn beyond(level: u32, count: u32) -> u64
    ensures value { result ≡ (10000 - level) * count }
    ensures bound { result ≤ 10000 * 4294967295 }
{
    WHOLE.saturating_sub(u64::from(level)) * u64::from(count)
}

// How many of the worst scenarios make up the tail: what the level leaves of them, rounded up.
pub(crate) fn tail(level: u32, count: u32) -> u32
    ensures { result ≡ tail_count level count }
{
    ((beyond(level, count) + (WHOLE - 1)) / WHOLE) as u32
}

// The level, if it leaves a tail that is not empty and not too long.
fn with_tail(count: u32, level: u32) -> Result<u32, Question>
    ensures { result ≡ with_tail count level }
{
    if (1..=LONGEST_TAIL).contains(&tail(level, count)) {
        Ok(level)
    } else {
        Err(Question::Range)
    }
}

// A level that leaves a tail of this many scenarios.
#[derive(Drop)]
pub(crate) struct TailLevel {
    pub(crate) count: u32,
}

impl Reading for TailLevel {
    type Value = u32;

    ghost judged = { λ s. level_cell s.count };

    fn read(&self, cell: &[u8]) -> Result<u32, Question> {
        let level = share(cell)?;
        with_tail(self.count, level)
    }
}

// The holiday factor.
#[derive(Drop)]
pub(crate) struct HolidayFactor;

impl Reading for HolidayFactor {
    type Value = u64;

    ghost judged = { λ _. factor_cell };

    fn read(&self, cell: &[u8]) -> Result<u64, Question> {
        FACTOR.value(cell).map(|factor| factor.unsigned_abs())
    }
}
