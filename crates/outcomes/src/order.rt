//! Outcomes read and compared.
ghost use Rattle.std.specs.Prelude.{◌≡◌};
ghost use Rattle.std.specs.Ordering.{MatchOrdering};
ghost use Rattle.outcomes.specs.Outcomes.{Precedes};

use super::outcome::*;
use std::cmp::Ordering;

impl Outcome {
    /// The values, in order.
    pub fn values(&self) -> [u8; VALUES]
        ensures { result ≡ self.now.values }
    {
        self.values
    }

    /// Less where this comes first, equal where all values are. The derived `cmp` says so by the library's order of lists; this says what that means.
    pub fn compare(&self, other: &Outcome) -> Ordering
        ensures { MatchOrdering result (Precedes self.now.values other.now.values) (self.now.values ≡ other.now.values) (Precedes other.now.values self.now.values) }
    {
        self.cmp(other)
    }
}
