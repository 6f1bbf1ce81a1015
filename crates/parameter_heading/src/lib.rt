// The heading of a parameter file: its first thirteen lines.
#![tactic(auto)]

ghost use Rattle.std.specs.Prelude.{◌≡◌, ◌≤◌, length, IfOk};
ghost use Rattle.parameter_text.specs.Questions.{seen_as};
ghost use Rattle.parameter_text.specs.Cuts.{lines as lines_of};
ghost use Rattle.parameter_text.specs.Left.{lines_left, text_left};
ghost use Rattle.parameter_heading.specs.Taking.{Takes};
ghost use Rattle.parameter_heading.specs.Headings.{scenarios as scenarios_of, heading as heading_of};
ghost use Rattle.parameter_heading.specs.Laid.{HeadingsPass, TailFigures, Sound};

mod groups;
mod named;
mod readings;
mod terms;
mod titles;

use groups::{amounts, counts, levels, weights};
use parameter_text::Lines;
use readings::tail;
use return_source::{Parameters, Scenarios, Weight};
pub use terms::{Fault, Heading, Level};
use titles::titles;

// A set of scenarios, with the tail that its level leaves.
fn scenarios(weight: u32, count: u32, level: u32) -> Scenarios
    ensures { result ≡ scenarios_of weight count level }
{
    Scenarios {
        weight: Weight {
            ten_thousandths: weight,
        },
        count,
        tail: tail(level, count),
    }
}

// What the first thirteen lines lay down.
fn first_lines(lines: &mut Lines<'_>) -> Result<Heading, Fault>
    ensures { Takes heading_of lines.old result lines.new }
{
    let weights = weights(lines)?;
    let (historical, stress) = counts(lines)?;
    let (historical_level, stress_level) = levels(lines, historical, stress)?;
    let (step, holiday_factor) = amounts(lines)?;
    titles(lines, historical.max(stress))?;
    Ok(Heading {
        date: weights.date,
        historical_level: Level {
            ten_thousandths: historical_level,
        },
        stress_level: Level {
            ten_thousandths: stress_level,
        },
        parameters: Parameters {
            historical: scenarios(weights.historical, historical, historical_level),
            stress: scenarios(weights.stress, stress, stress_level),
            step,
            holiday_factor,
        },
    })
}

// The heading of a text and the lines after it.
fn laid_down(text: &[u8]) -> Result<(Heading, Lines<'_>), Fault>
    ensures heading { seen_as (λ p. (p.0, lines_left p.1)) result ≡ heading_of (lines_of text.now) }
    ensures rest { IfOk result (λ p. length (text_left p.1) ≤ length text.now) }
    ensures law { HeadingsPass }
    ensures sound { IfOk result (λ p. Sound p.0) }
{
    let mut lines = Lines::new(text);
    let heading = first_lines(&mut lines)?;
    Ok((heading, lines))
}

// The heading of a file and the text after it, or the first fault of its first thirteen lines.
pub fn heading(text: &[u8]) -> Result<(Heading, &[u8]), Fault>
    ensures heading { seen_as (λ p. (p.0, lines_of p.1.now)) result ≡ heading_of (lines_of text.now) }
    ensures rest { IfOk result (λ p. length p.1.now ≤ length text.now) }
    ensures law { HeadingsPass }
    ensures figures { TailFigures }
    ensures sound { IfOk result (λ p. Sound p.0) }
{
    let (heading, lines) = laid_down(text)?;
    Ok((heading, lines.rest()))
}

#[cfg(test)]
mod tests;
