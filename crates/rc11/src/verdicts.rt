//! The verdict on a graph.
ghost use Rattle.std.specs.Prelude.{◌≡◌, ℕ, ◌<◌, Decides, if◌then◌else◌};
ghost use Rattle.graph.specs.Execution.{view};
ghost use Rattle.relations.specs.Rows.{related, pairs_below};
ghost use Rattle.consistency.specs.Relations.{Hb, FirstBroken};
ghost use Rattle.consistency.specs.Computed.{hb_rows, verdict};
ghost use Rattle.consistency.specs.Counting.{NumberOfPairs};
ghost use Rattle.consistency.specs.Verdicts.{verdict_number};

use super::base::*;
use super::derived::*;
use consistency::verdict::*;
use graph::graph::Graph;
use relations::questions::*;
use relations::rows::*;

/// That a rule is kept, or else that it is broken.
fn require(kept: bool, rule: Rule) -> Verdict
    ensures { result ≡ (if kept then Ok tt else Err rule) }
{
    if kept { Ok(()) } else { Err(rule) }
}

/// The verdict, by the rules as they are computed.
#[tactic(auto, unfolding(consistency::specs::Computed::verdict))]
fn judge(graph: &Graph) -> Verdict
    ensures { verdict_number result ≡ verdict (view graph.now) }
{
    let base = Base::of(graph);
    require(base.has_no_thin_air(), Rule::NoThinAir)?;
    let derived = Derived::of(base);
    require(derived.is_coherent(), Rule::Coherence)?;
    require(derived.is_atomic(), Rule::Atomicity)?;
    require(derived.is_sc_ordered(), Rule::ScOrder)
}

/// hb: one or more steps of sb or sw.
pub fn happens_before(graph: &Graph) -> Relation
    ensures value { result.rows ≡ hb_rows (view graph.now) }
    ensures tells { (a b : ℕ) → a < 36 → b < 36 → Decides (related result.rows a b) (Hb (view graph.now) a b) }
{
    Base::of(graph).happens()
}

/// The number of hb pairs between statement events.
pub fn hb_pairs(graph: &Graph) -> u32
    ensures value { result ≡ pairs_below 32 (hb_rows (view graph.now)) }
    ensures number { NumberOfPairs (Hb (view graph.now)) result }
{
    happens_before(graph).statement_pairs()
}

/// That the graph is consistent, or else the first rule that it breaks.
pub fn verdict(graph: &Graph) -> Verdict
    ensures value { verdict_number result ≡ verdict (view graph.now) }
    ensures first { FirstBroken (view graph.now) (verdict_number result) }
    ensures only { (v : ℕ) → FirstBroken (view graph.now) v → v ≡ verdict_number result }
{
    judge(graph)
}
