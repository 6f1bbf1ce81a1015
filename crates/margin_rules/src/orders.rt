// The orders of what an assessment keeps.
ghost use Rattle.std.specs.Prelude.{◌≡◌, unsigned_abs};
ghost use Rattle.std.specs.Ordering.{nat_cmp, int_cmp, on, flip_args, then_cmp, as_partial_cmp};
ghost use Rattle.std.specs.Cmp.{partial_order_from_own_ties};
ghost use Rattle.std.specs.Cmp.Rules.{comparing};
ghost use Rattle.std.proofs.Common.{arith, rules};
ghost use Rattle.std.proofs.lemmas.Int.{ints};
ghost use Rattle.std.proofs.lemmas.Bool.Decides.{nat_tests};
ghost use Rattle.ledger.specs.contracts.terms.KindOrd.TheImpl.Laws.{total-law as kind_total};
ghost use Rattle.first_few.specs.Order.{ComparesBy};
ghost use Rattle.margin_rules.specs.Answers.{larger, worse};

use crate::terms::{Holding, Outcome};
use first_few::Order;
use ledger::Kind;
use std::cmp::Ordering;

// The lower total first, then the lower scenario: the fields in their turn, as the derived comparison has them.
impl Order for Outcome {
    ghost before = { worse };

    fn precedes(&self, other: &Outcome) -> bool
        ensures order { result ≡ worse self.now other.now }
        ensures comparison { ComparesBy ⟦<Outcome as Ord>⟧.cmp worse }
    {
        self < other
    }

    ghost strict = { record { asym = λ a b e. Prim.grind (arith, ints, nat_tests); trans = λ a b c e f. Prim.grind (arith, ints, nat_tests); one = λ a b e f. Prim.grind (arith, ints, nat_tests) } };
}

// The greater size first, then the lower kind, then the lower stock.
// Kept: by hand, since a derived comparison takes no size of a field and no field the other way round.
impl Ord for Holding {
    ghost cmp = { then_cmp (flip_args (on (λ h. unsigned_abs h.market_value) nat_cmp)) (then_cmp (on (λ h. h.kind) ⟦<Kind as Ord>⟧.cmp) (then_cmp (on (λ h. h.stock) nat_cmp) (on (λ h. h.market_value) int_cmp))) };

    ghost total = { Prim.search (kind_total, comparing, rules) depth 9 };

    ghost matches_partial_cmp = { Prim.search (comparing, rules) };

    ghost matches_eq = { λ a b. Prim.grind (arith, ints, nat_tests) };

    fn cmp(&self, other: &Holding) -> Ordering {
        let size = self.market_value.unsigned_abs();
        let other_size = other.market_value.unsigned_abs();
        other_size
            .cmp(&size)
            .then(self.kind.cmp(&other.kind))
            .then(self.stock.cmp(&other.stock))
            .then(self.market_value.cmp(&other.market_value))
    }
}

impl PartialOrd for Holding {
    ghost partial_cmp = { as_partial_cmp (then_cmp (flip_args (on (λ h. unsigned_abs h.market_value) nat_cmp)) (then_cmp (on (λ h. h.kind) ⟦<Kind as Ord>⟧.cmp) (then_cmp (on (λ h. h.stock) nat_cmp) (on (λ h. h.market_value) int_cmp)))) };

    ghost laws = { partial_order_from_own_ties (Prim.search (kind_total, comparing, rules) depth 9) (λ a b. Prim.grind (arith, ints, nat_tests)) };

    fn partial_cmp(&self, other: &Holding) -> Option<Ordering> {
        Some(self.cmp(other))
    }
}

impl Order for Holding {
    ghost before = { larger };

    fn precedes(&self, other: &Holding) -> bool
        ensures order { result ≡ larger self.now other.now }
        ensures comparison { ComparesBy ⟦<Holding as Ord>⟧.cmp larger }
    {
        self.cmp(other).is_lt()
    }

    ghost strict = { record { asym = λ a b e. Prim.grind (arith, ints, nat_tests); trans = λ a b c e f. Prim.grind (arith, ints, nat_tests); one = λ a b e f. Prim.grind (arith, ints, nat_tests) } };
}
