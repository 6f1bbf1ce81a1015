// The fallback source, behind the interface of a return source.
ghost use Rattle.std.specs.Prelude.{◌≡◌, ◌≤◌};
ghost use Rattle.std.specs.Result.{result_map_both};
ghost use Rattle.std.proofs.Common.{arith};
ghost use Rattle.std.proofs.lemmas.Grind.{common_steps};
ghost use Rattle.fallback_source.specs.Fallback.{lowest_rate, highest_rate, one_scenario, is_stock, fallback_meaning, fallback};

use super::terms::RateRefusal;
use return_source::{
    EntitlementType, Parameters, ReturnSource, RowRefusal, ScenarioSet, Scenarios, Tier, Weight,
};

// The lowest and the highest rate, in ten-thousandths.
const LOWEST_RATE: u32 = 600;

const HIGHEST_RATE: u32 = 10_000;

// The greatest number that a stock can have.
const LAST_STOCK: u32 = 99_999;

// The whole of the weight, in ten-thousandths.
const WHOLE: u32 = 10_000;

// The rounding step, in dollars.
const STEP: u32 = 250_000;

// Every stock in the flat tier at one rate, in ten-thousandths.
#[derive(Clone, Copy)]
pub struct FallbackSource {
    rate: u32,
    ghost high_enough: { lowest_rate ≤ rate },
    ghost low_enough: { rate ≤ highest_rate },
}

impl FallbackSource {
    // The source of a rate in ten-thousandths, 600 to 10,000.
    pub fn new(rate: u32) -> Result<FallbackSource, RateRefusal>
        ensures { result_map_both (λ s. ⟦<FallbackSource as ReturnSource>⟧.meaning s) (λ e. e) result ≡ fallback rate }
    {
        if !(LOWEST_RATE..=HIGHEST_RATE).contains(&rate) {
            return Err(RateRefusal::Rate);
        }
        Ok(FallbackSource { rate })
    }
}

// One scenario, which is the tail too.
fn one_scenario(ten_thousandths: u32) -> Scenarios
    ensures { result ≡ one_scenario ten_thousandths }
{
    Scenarios {
        weight: Weight { ten_thousandths },
        count: 1,
        tail: 1,
    }
}

fn is_stock(stock: u32) -> bool
    ensures { result ≡ is_stock stock }
{
    (1..=LAST_STOCK).contains(&stock)
}

impl ReturnSource for FallbackSource {
    ghost meaning = { λ s. fallback_meaning s.rate };

    fn parameters(&self) -> Parameters {
        Parameters {
            historical: one_scenario(WHOLE),
            stress: one_scenario(0),
            step: STEP,
            holiday_factor: 0,
        }
    }

    fn tier(&self, stock: u32) -> Option<Tier> {
        self.flat_rate(stock).map(|_| Tier::Flat)
    }

    fn flat_rate(&self, stock: u32) -> Option<u32> {
        is_stock(stock).then_some(self.rate)
    }

    fn entitlement(&self, _kind: EntitlementType, _stock: u32) -> Option<(u32, (u32, u32))> {
        None
    }

    fn write_row(
        &self,
        _set: ScenarioSet,
        _stock: u32,
        _sheet: &mut [i32],
    ) -> Result<usize, RowRefusal> {
        Err(RowRefusal::NoRow)
    }

    ghost lawful = { λ s. Prim.grind (arith, common_steps) };
}
