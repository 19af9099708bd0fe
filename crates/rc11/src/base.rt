//! The relations that make up hb, and rb and eco.
ghost use Rattle.std.specs.Prelude.{◌≡◌};
ghost use Rattle.graph.specs.Execution.{view};
ghost use Rattle.consistency.specs.Computed.{sb_rows, rf_rows, mo_rows, rb_rows, eco_rows, sequence_rows, releases_rows, acquires_rows, sw_rows, hb_rows, keeps_1};

use bases::pairs;
use bases::sets::*;
use graph::graph::Graph;
use relations::closure::*;
use relations::questions::*;
use relations::rows::*;

/// A graph with its sb and rf.
#[derive(Clone, Copy)]
pub(crate) struct Base<'g> {
    pub(crate) graph: &'g Graph,
    pub(crate) sb: Relation,
    pub(crate) rf: Relation,
    ghost sb_is: { sb.rows ≡ sb_rows (view graph.now) },
    ghost rf_is: { rf.rows ≡ rf_rows (view graph.now) },
}

impl<'g> Base<'g> {
    /// Of a graph.
    pub(crate) fn of(graph: &'g Graph) -> Base<'g>
        ensures { result.graph.now ≡ graph.now }
    {
        Base {
            graph,
            sb: pairs::sb(graph),
            rf: pairs::rf(graph),
        }
    }

    /// rb: from a read to the writes after its source, but not to itself.
    #[tactic(auto, unfolding(consistency::specs::Computed::rb_rows))]
    pub(crate) fn reads_before(&self, mo: &Relation) -> Relation
        requires { mo.now.rows ≡ mo_rows (view self.now.graph.now) }
        ensures { result.rows ≡ rb_rows (view self.now.graph.now) }
    {
        let later = self.rf.inverse().then(mo);
        later.common(&pairs::apart(self.graph))
    }

    /// eco: one or more steps of rf, mo or rb.
    #[tactic(auto, unfolding(consistency::specs::Computed::eco_rows))]
    pub(crate) fn communication(&self, mo: &Relation, rb: &Relation) -> Relation
        requires mo_is { mo.now.rows ≡ mo_rows (view self.now.graph.now) }
        requires rb_is { rb.now.rows ≡ rb_rows (view self.now.graph.now) }
        ensures { result.rows ≡ eco_rows (view self.now.graph.now) }
    {
        self.rf.union(&mo.union(rb)).closure()
    }

    /// Release sequences: from a write to itself and to each update that reads from a member.
    #[tactic(auto, unfolding(consistency::specs::Computed::sequence_rows))]
    fn sequences(&self) -> Relation
        ensures { result.rows ≡ sequence_rows (view self.now.graph.now) }
    {
        let writes = writes(self.graph);
        let members = self.rf.to(updates(self.graph)).closure();
        Relation::identity(writes).union(&members.from(writes))
    }

    /// From a release write to itself, and from a release fence to what is sb-after it.
    #[tactic(auto, unfolding(consistency::specs::Computed::releases_rows))]
    fn released(&self) -> Relation
        ensures { result.rows ≡ releases_rows (view self.now.graph.now) }
    {
        let itself = Relation::identity(release_writes(self.graph));
        itself.union(&self.sb.from(release_fences(self.graph)))
    }

    /// From an acquire read to itself, and from what is sb-before an acquire fence to the fence.
    #[tactic(auto, unfolding(consistency::specs::Computed::acquires_rows))]
    fn acquired(&self) -> Relation
        ensures { result.rows ≡ acquires_rows (view self.now.graph.now) }
    {
        let itself = Relation::identity(acquire_reads(self.graph));
        itself.union(&self.sb.to(acquire_fences(self.graph)))
    }

    /// sw: what is released, handed on by a release sequence, read and acquired.
    #[tactic(auto, unfolding(consistency::specs::Computed::sw_rows))]
    fn synchronizes(&self) -> Relation
        ensures { result.rows ≡ sw_rows (view self.now.graph.now) }
    {
        let read = self.rf.then(&self.acquired());
        self.released().then(&self.sequences().then(&read))
    }

    /// hb: one or more steps of sb or sw.
    #[tactic(auto, unfolding(consistency::specs::Computed::hb_rows))]
    pub(crate) fn happens(&self) -> Relation
        ensures { result.rows ≡ hb_rows (view self.now.graph.now) }
    {
        self.sb.union(&self.synchronizes()).closure()
    }

    /// If sb and rf together have no cycle.
    #[tactic(auto, unfolding(consistency::specs::Computed::keeps_1))]
    pub(crate) fn has_no_thin_air(&self) -> bool
        ensures { result ≡ keeps_1 (view self.now.graph.now) }
    {
        self.sb.union(&self.rf).closure().is_irreflexive()
    }
}
