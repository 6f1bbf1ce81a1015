#![tactic(auto)]
// Whole dollars: sums, tails, rounding and charges, as definitions, with the laws that hold of them for every amount.
ghost use Rattle.amounts.specs.Tails.{TailIsLeast, TailAdds, TailStaysNear};
ghost use Rattle.amounts.specs.Rounding.{RoundOffIsNear, RoundUpIsNear};
ghost use Rattle.amounts.specs.Charges.{SidedAdds, GreaterSideAdds, DueAdds};

/// The tail is the least sum over all choices of as many scenarios, and grows no slower than its parts.
pub fn tail_laws()
    ensures tail_is_least { TailIsLeast }
    ensures tail_adds { TailAdds }
    ensures tail_stays_near { TailStaysNear }
{}

/// Rounding off moves a figure by at most half a unit, and rounding up by less than a step.
pub fn rounding_laws()
    ensures round_off_is_near { RoundOffIsNear }
    ensures round_up_is_near { RoundUpIsNear }
{}

/// No charge on two accounts together is more than the sum of theirs.
pub fn charge_laws()
    ensures sided_adds { SidedAdds }
    ensures greater_side_adds { GreaterSideAdds }
    ensures due_adds { DueAdds }
{}
