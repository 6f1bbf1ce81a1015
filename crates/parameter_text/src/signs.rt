// Signs: a minus in front of a number, or none.
ghost use Rattle.std.specs.Prelude.{◌≡◌, ◌^◌, ◌<◌, ◌≤◌};
ghost use Rattle.parameter_text.specs.Decimals.{signed, minus_in, unsigned_in};
ghost use Rattle.parameter_text.specs.Signs.{is_minus, farthest};

use super::terms::Sign;

impl Sign {
    // The sign in front of a cell, and what follows it.
    pub fn of(cell: &[u8]) -> (Sign, &[u8])
        ensures minus { is_minus result.0 ≡ minus_in cell.now }
        ensures rest { result.1.now ≡ unsigned_in cell.now }
    {
        match cell {
            [b'-', rest @ ..] => (Sign::Minus, rest),
            _ => (Sign::Plus, cell),
        }
    }

    // A size with this sign. A size of more than 63 bits becomes the greatest or the least number.
    pub fn with(self, size: u64) -> i64
        ensures within { size < 2 ^ 63 → result ≡ signed (is_minus self) size }
        ensures beyond { 2 ^ 63 ≤ size → result ≡ farthest self }
    {
        match self {
            Sign::Plus => 0i64.saturating_add_unsigned(size),
            Sign::Minus => 0i64.saturating_sub_unsigned(size),
        }
    }
    // A size that is far from the greatest, with this sign. Kept beside `with`: it asks nothing of the size as it runs, and each
    // return of a parameter file in another spelling than the usual comes here.
    pub(crate) fn with_small(self, size: u64) -> i64
        requires { size ≤ 3000000000000000 }
        ensures { result ≡ signed (is_minus self) size }
    {
        let value = size as i64;
        match self {
            Sign::Plus => value,
            Sign::Minus => -value,
        }
    }
}
