// The tail of a group: its lowest totals.
ghost use Rattle.std.specs.Prelude.{◌≡◌, ℕ, ◌+◌, ◌*◌, ◌<◌, ◌≤◌, List, [], ◌∷◌, ◌++◌, map, length, take, ℤ, pos, ◌+ℤ◌, unsigned_abs};
ghost use Rattle.std.specs.List.{AllByRecursion};
ghost use Rattle.amounts.specs.FirstFew.{kept};
ghost use Rattle.amounts.specs.Sums.{sum_of};
ghost use Rattle.amounts.specs.Tails.{tail_sum};
ghost use Rattle.margin_rules.specs.Answers.{worse};
ghost use Rattle.margin.specs.Outcomes.{outcomes};

use first_few::FirstFew;
use margin_rules::Outcome;

// Keeps the lowest totals, as many as there are places.
fn keep_tail<'a>(tail: &'a mut [Outcome], totals: &[i64]) -> FirstFew<'a, Outcome>
    requires { length totals.now ≤ 4000 }
    ensures { take result.len result.places.now ≡ kept worse (length tail.old) (outcomes 0 totals.now) }
{
    let mut first = FirstFew::new(tail);
    for (i, total) in totals.iter().enumerate() {
        first.offer(Outcome {
            total: *total,
            scenario: i as u32,
        });
    }
    first
}

// The sum of outcomes' totals.
// Kept: a `for`: for `iter().map(..).sum()` over signed numbers no proof is found that the sum fits (`sum-requires-clause-fits`).
fn sum_totals(part: &[Outcome]) -> i64
    requires few { length part.now ≤ 100 }
    requires small { AllByRecursion (λ o. unsigned_abs o.total ≤ 400000000000000) part.now }
    ensures value { result ≡ sum_of (λ o. o.total) part.now }
    ensures bound { unsigned_abs result ≤ 40000000000000000 }
{
    let mut sum: i64 = 0;
    for o in part {
        sum += o.total;
    }
    sum
}

// The sum of the lowest totals, as many as there are places.
pub(crate) fn tail_sum(tail: &mut [Outcome], totals: &[i64]) -> i64
    requires few { length totals.now ≤ 4000 }
    requires places { length tail.old ≤ 100 }
    requires room { length tail.old ≤ length totals.now }
    requires small { AllByRecursion (λ t. unsigned_abs t ≤ 400000000000000) totals.now }
    ensures value { result ≡ tail_sum (length tail.old) totals.now }
    ensures bound { unsigned_abs result ≤ 40000000000000000 }
{
    let first = keep_tail(tail, totals);
    sum_totals(first.kept())
}
