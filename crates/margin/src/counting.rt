// How many positions stand in the portfolio tier.
ghost use Rattle.std.specs.Prelude.{◌≡◌};
ghost use Rattle.margin_rules.specs.Positions.{all_stocks, held_in, any_place};
ghost use Rattle.margin_rules.specs.Requirement.{portfolio_positions};

use crate::account::Assessable;
use crate::parts::Part;
use return_source::ReturnSource;

impl<S: ReturnSource> Assessable<'_, S> {
    // The positions in the portfolio tier.
    pub(crate) fn portfolio_positions(&self) -> u32
        ensures { result ≡ portfolio_positions (S.meaning self.now.source.now) all_stocks (λ k x. any_place (held_in k x) self.now.account.places.now) }
    {
        self.visits_in(Part::Portfolio).count() as u32
    }
}
