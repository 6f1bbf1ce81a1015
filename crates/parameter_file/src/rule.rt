// What a row may be.
ghost use Rattle.std.specs.Prelude.{◌≡◌, ◌≤◌};
ghost use Rattle.return_source.specs.Lawful.{scenario_count};

use return_source::{Parameters, ScenarioSet};

// What a file's parameters ask of a row: as many returns as the set has scenarios, 1 to 4,000.
#[derive(Clone, Copy)]
pub struct RowRule {
    pub parameters: Parameters,
    ghost historical_some: { 1 ≤ parameters.historical.count },
    ghost historical_few: { parameters.historical.count ≤ 4000 },
    ghost stress_some: { 1 ≤ parameters.stress.count },
    ghost stress_few: { parameters.stress.count ≤ 4000 },
}

impl RowRule {
    // How many returns a row of a set has.
    pub(crate) fn count(&self, set: ScenarioSet) -> usize
        ensures count { result ≡ scenario_count self.now.parameters set }
        ensures some { 1 ≤ result }
        ensures few { result ≤ 4000 }
    {
        self.parameters.scenarios(set).count as usize
    }
}
