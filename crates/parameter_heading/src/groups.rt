// The groups of lines that make up the heading, each taken from where the one before it ended.
ghost use Rattle.parameter_heading.specs.Taking.{Takes};
ghost use Rattle.parameter_heading.specs.Headings.{weights as weights_of, counts as counts_of, levels as levels_of, amounts as amounts_of};

use super::named::next_reading;
use super::readings::{Day, HistoricalWeight, HolidayFactor, StressWeight, TailLevel};
use super::terms::{Fault, Weights};
use parameter_text::{IntegerRule, Lines};

// How many scenarios a set may have.
const COUNT: IntegerRule = IntegerRule {
    low: 1,
    high: 4_000,
};

// A count that is asked for its range and not used.
const UNUSED_COUNT: IntegerRule = IntegerRule {
    low: 0,
    high: 100_000,
};

// The only measure.
const MEASURE: IntegerRule = IntegerRule { low: 4, high: 4 };

// The rounding step, in dollars.
const STEP: IntegerRule = IntegerRule {
    low: 1,
    high: 1_000_000,
};

// Lines 1 to 3: the date and the weights.
pub(crate) fn weights(lines: &mut Lines<'_>) -> Result<Weights, Fault>
    ensures { Takes weights_of lines.old result lines.new }
{
    let date = next_reading(lines, 1, b"Valuation_DT", &Day)?;
    let historical = next_reading(lines, 2, b"HVaR_WGT", &HistoricalWeight)?;
    let stress = next_reading(lines, 3, b"SVaR_WGT", &StressWeight { historical })?;
    Ok(Weights {
        date,
        historical,
        stress,
    })
}

// Lines 4 to 6: how many scenarios there are, historical and stress.
// Kept: pairs here and below, for the definitions of these lines give pairs, and each is taken apart by name in the one call.
pub(crate) fn counts(lines: &mut Lines<'_>) -> Result<(u32, u32), Fault>
    ensures { Takes counts_of lines.old result lines.new }
{
    let historical = next_reading(lines, 4, b"HVaR_Scen_Count", &COUNT)?;
    let stress = next_reading(lines, 5, b"SVaR_Scen_Count", &COUNT)?;
    next_reading(lines, 6, b"STV_Count", &UNUSED_COUNT)?;
    Ok((historical, stress))
}

// Lines 7 and 8: the levels of so many historical and so many stress scenarios.
pub(crate) fn levels(
    lines: &mut Lines<'_>,
    historical: u32,
    stress: u32,
) -> Result<(u32, u32), Fault>
    ensures { Takes (levels_of historical stress) lines.old result lines.new }
{
    let historical = next_reading(lines, 7, b"HVaR_CL", &TailLevel { count: historical })?;
    let stress = next_reading(lines, 8, b"SVaR_CL", &TailLevel { count: stress })?;
    Ok((historical, stress))
}

// Lines 9 to 12: the measures, the rounding step and the holiday factor.
pub(crate) fn amounts(lines: &mut Lines<'_>) -> Result<(u32, u64), Fault>
    ensures { Takes amounts_of lines.old result lines.new }
{
    next_reading(lines, 9, b"HVaR_Measure", &MEASURE)?;
    next_reading(lines, 10, b"SVaR_Measure", &MEASURE)?;
    let step = next_reading(lines, 11, b"Rounding", &STEP)?;
    let factor = next_reading(lines, 12, b"Holiday_Factor", &HolidayFactor)?;
    Ok((step, factor))
}
