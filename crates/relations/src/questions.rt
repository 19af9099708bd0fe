//! Questions to a relation.
ghost use Rattle.std.specs.Prelude.{◌≡◌, ◌<◌, ◌≤◌, not, ◌&&◌, ◌||◌, nat_lt};
ghost use Rattle.relations.specs.Rows.{has, related, every, irreflexive, within, pairs_below};

use super::rows::*;
use events::event::{EVENTS, STATEMENTS};

/// If all events of the first set are in the second.
fn contained(first: u64, second: u64) -> bool
    ensures { result ≡ every 36 (λ e. not (has first e) || has second e) }
{
    (0..EVENTS).all(|e| !has(first, e) || has(second, e))
}

impl Relation {
    /// If the first event is related to the second; none above 35 is.
    pub fn holds(&self, a: usize, b: usize) -> bool
        ensures { result ≡ (nat_lt a 36 && nat_lt b 36 && related self.now.rows a b) }
    {
        a < EVENTS && b < EVENTS && has(self.rows[a], b)
    }

    /// If no event is related to itself.
    pub fn is_irreflexive(&self) -> bool
        ensures { result ≡ irreflexive self.now.rows }
    {
        (0..EVENTS).all(|a| !has(self.rows[a], a))
    }

    /// If every pair of this is a pair of the other.
    pub fn is_within(&self, other: &Relation) -> bool
        ensures { result ≡ within self.now.rows other.now.rows }
    {
        (0..EVENTS).all(|a| contained(self.rows[a], other.rows[a]))
    }

    /// The number of pairs of statement events.
    pub fn statement_pairs(&self) -> u32
        ensures value { result ≡ pairs_below 32 self.now.rows }
        ensures bound { result ≤ 1024 }
    {
        self.rows[..STATEMENTS]
            .iter()
            .map(|row| (row & 0xffff_ffff).count_ones())
            .sum()
    }
}
