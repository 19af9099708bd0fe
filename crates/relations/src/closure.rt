//! One or more steps of a relation, by Warshall's passes.
ghost use Rattle.std.specs.Prelude.{◌≡◌, ◌<◌};
ghost use Rattle.relations.specs.Rows.{joined, passed, closed};

use super::rows::*;
use events::event::EVENTS;

/// A row with what the pivot is related to, if it holds the pivot.
fn joined(pivot: u64, k: usize, line: u64) -> u64
    requires { k < 36 }
    ensures { result ≡ joined pivot k line }
{
    if has(line, k) { line | pivot } else { line }
}

/// One pass over the rows. Where the pivot is related to nothing, as in a graph each number without an event is, they stay as they are.
#[tactic(auto, using(crate::proofs::Warshall::passed_by_none), unfolding(crate::specs::Rows::passed))]
fn pass(relation: &Relation, k: usize) -> Relation
    requires { k < 36 }
    ensures { result.rows ≡ passed relation.now.rows k }
{
    let pivot = relation.rows[k];
    if pivot == 0 {
        return *relation;
    }
    Relation::by_rows(|a| joined(pivot, k, relation.rows[a]))
}

impl Relation {
    /// One or more steps.
    pub fn closure(&self) -> Relation
        ensures { result.rows ≡ closed self.now.rows }
    {
        (0..EVENTS).fold(*self, |closed, k| pass(&closed, k))
    }
}
