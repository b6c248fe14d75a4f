// Sums of weights that are as wide as a search needs them.
ghost use Rattle.std.specs.Prelude.{◌≡◌, ◌+◌, ◌<◌, ◌^◌, ◌↔◌, ℕ, IsTrue, MatchOption};
ghost use Rattle.std.specs.Ordering.{nat_cmp};
ghost use Rattle.std.specs.Prelude.{refl};

use std::cmp::Ord;

// A sum of weights, ordered by its value.
pub(crate) trait Sum: Ord + Copy + Drop {
    ghost value: { Self → ℕ };

    // The greatest sum that there is.
    ghost most: { ℕ };

    fn zero() -> Self
        ensures { value result ≡ 0 };

    // The sum with a weight more, or None where it is greater than any.
    fn plus(&self, weight: u64) -> Option<Self>
        ensures { MatchOption result (most < value self.now + weight) (λ sum. value sum ≡ value self.now + weight) };

    fn wide(&self) -> u128
        ensures { result ≡ value self.now };

    fn is_less(&self, other: &Self) -> bool
        ensures { IsTrue result ↔ (value self.now < value other.now) };

    ghost ordered: { (x y : Self) → Self.Ord.cmp x y ≡ nat_cmp (value x) (value y) };
}

impl Sum for u64 {
    ghost value = { λ n. n };

    ghost most = { 18446744073709551615 };

    ghost ordered = { λ x y. refl };

    fn zero() -> u64 {
        0
    }

    fn plus(&self, weight: u64) -> Option<u64> {
        self.checked_add(weight)
    }

    fn wide(&self) -> u128 {
        u128::from(*self)
    }

    fn is_less(&self, other: &u64) -> bool {
        *self < *other
    }
}

impl Sum for u128 {
    ghost value = { λ n. n };

    ghost most = { 340282366920938463463374607431768211455 };

    ghost ordered = { λ x y. refl };

    fn zero() -> u128 {
        0
    }

    fn plus(&self, weight: u64) -> Option<u128> {
        self.checked_add(u128::from(weight))
    }

    fn wide(&self) -> u128 {
        *self
    }

    fn is_less(&self, other: &u128) -> bool {
        *self < *other
    }
}
