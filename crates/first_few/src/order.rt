// A total order of a type's own.
ghost use Rattle.std.specs.Prelude.{◌≡◌, Bool};
ghost use Rattle.amounts.specs.FirstFew.{Strict};

// A type with a total order.
// Kept: a trait of its own without `Ord`, for a type may be kept in another order than its comparison's, and `Ord` lets values
// that differ be equal: then the turn would tell which of them stay.
pub trait Order: Copy {
    // Whether one stands ahead of the other.
    ghost before: { Self → Self → Bool };

    // Whether this stands ahead of the other.
    fn precedes(&self, other: &Self) -> bool
        ensures { result ≡ before self.now other.now };

    // Of two that are not the same, just one stands ahead.
    ghost strict: { Strict before };
}
