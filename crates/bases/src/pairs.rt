//! The relations that are found pair by pair.
ghost use Rattle.std.specs.Prelude.{◌≡◌};
ghost use Rattle.graph.specs.Execution.{view};
ghost use Rattle.consistency.specs.Relations.{accesses};
ghost use Rattle.consistency.specs.Computed.{is_sb, sb_rows, rf_rows, mo_rows, apart_rows, sharing_rows};

use events::event::STATEMENTS;
use graph::facts::*;
use graph::graph::Graph;
use graph::parts::*;
use programs::threads::MAX_STATEMENTS;
use relations::rows::Relation;

/// If the first event stands before the second: earlier in its thread, or as an initial write.
fn is_sb(graph: &Graph, a: usize, b: usize) -> bool
    ensures { result ≡ is_sb (view graph.now) a b }
{
    // Each question only where the one before is answered by yes, as in `mo` below.
    graph.is_present(a)
        && graph.is_present(b)
        && b < STATEMENTS
        && (a / MAX_STATEMENTS == b / MAX_STATEMENTS && a < b || STATEMENTS <= a)
}

/// sb: from an event to the later ones of its thread, and from an initial write to each statement's.
#[tactic(auto, unfolding(consistency::specs::Computed::sb_rows))]
pub fn sb(graph: &Graph) -> Relation
    ensures { result.rows ≡ sb_rows (view graph.now) }
{
    Relation::of(|a, b| is_sb(graph, a, b))
}

/// rf: from a write to what reads from it.
#[tactic(auto, unfolding(consistency::specs::Computed::rf_rows))]
pub fn rf(graph: &Graph) -> Relation
    ensures { result.rows ≡ rf_rows (view graph.now) }
{
    Relation::of(|w, r| graph.is_read(r) && graph.source(r).is_some_and(|s| usize::from(s) == w))
}

/// mo: from a write to the later ones of its location.
#[tactic(auto, unfolding(consistency::specs::Computed::mo_rows))]
pub fn mo(graph: &Graph) -> Relation
    ensures { result.rows ≡ mo_rows (view graph.now) }
{
    // Each question only where the one before is answered by yes: a `let` in front would ask it of every pair.
    Relation::of(|a, b| {
        graph.is_write(a)
            && graph.is_write(b)
            && {
                let l = graph.location(a);
                l == graph.location(b) && graph.position(l, a) < graph.position(l, b)
            }
    })
}

/// Two different events.
#[tactic(auto, unfolding(consistency::specs::Computed::apart_rows))]
pub fn apart(graph: &Graph) -> Relation
    ensures { result.rows ≡ apart_rows (view graph.now) }
{
    Relation::of(|a, b| graph.is_present(a) && graph.is_present(b) && a != b)
}

/// If an event reads or writes.
fn is_access(graph: &Graph, e: usize) -> bool
    ensures { result ≡ accesses (view graph.now) e }
{
    graph.is_read(e) || graph.is_write(e)
}

/// Two events that share a location.
#[tactic(auto, unfolding(consistency::specs::Computed::sharing_rows))]
pub fn sharing(graph: &Graph) -> Relation
    ensures { result.rows ≡ sharing_rows (view graph.now) }
{
    Relation::of(|a, b| {
        let both = is_access(graph, a) && is_access(graph, b);
        both && graph.location(a) == graph.location(b)
    })
}
