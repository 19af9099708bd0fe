//! The relations that are made with hb and eco: scb and psc.
ghost use Rattle.std.specs.Prelude.{◌≡◌};
ghost use Rattle.graph.specs.Execution.{view};
ghost use Rattle.consistency.specs.Computed.{mo_rows, rb_rows, hb_rows, eco_rows, scb_rows, unshared_rows, psc_base_rows, psc_fence_rows, psc_rows, keeps_2, keeps_3, keeps_4};

use super::base::*;
use bases::pairs;
use bases::sets::*;
use relations::closure::*;
use relations::questions::*;
use relations::rows::*;

/// The base with its mo, rb, hb and eco.
#[derive(Clone, Copy)]
pub(crate) struct Derived<'g> {
    base: Base<'g>,
    mo: Relation,
    rb: Relation,
    hb: Relation,
    eco: Relation,
    ghost mo_is: { mo.rows ≡ mo_rows (view base.graph.now) },
    ghost rb_is: { rb.rows ≡ rb_rows (view base.graph.now) },
    ghost hb_is: { hb.rows ≡ hb_rows (view base.graph.now) },
    ghost eco_is: { eco.rows ≡ eco_rows (view base.graph.now) },
}

impl<'g> Derived<'g> {
    /// Of a base.
    pub(crate) fn of(base: Base<'g>) -> Derived<'g>
        ensures { result.base.graph.now ≡ base.entry.graph.now }
    {
        let mo = pairs::mo(base.graph);
        let rb = base.reads_before(&mo);
        Derived {
            base,
            mo,
            rb,
            hb: base.happens(),
            eco: base.communication(&mo, &rb),
        }
    }

    /// scb: sb; sb, hb, sb where neither sb shares a location; hb at one location; mo; rb.
    #[tactic(auto, unfolding(consistency::specs::Computed::scb_rows, consistency::specs::Computed::unshared_rows))]
    fn sc_before(&self) -> Relation
        ensures { result.rows ≡ scb_rows (view self.now.base.graph.now) }
    {
        let sb = &self.base.sb;
        let sharing = pairs::sharing(self.base.graph);
        let unshared = sb.without(&sharing);
        let around = unshared.then(&self.hb.then(&unshared));
        let shared = self.hb.common(&sharing);
        sb.union(&around.union(&shared.union(&self.mo.union(&self.rb))))
    }

    /// psc, first form: scb between sc events, or sc fences before and after.
    #[tactic(auto, unfolding(consistency::specs::Computed::psc_base_rows))]
    fn partial_sc(&self) -> Relation
        ensures { result.rows ≡ psc_base_rows (view self.now.base.graph.now) }
    {
        let itself = Relation::identity(sc_events(self.base.graph));
        let fences = sc_fences(self.base.graph);
        let starts = itself.union(&self.hb.from(fences));
        let ends = itself.union(&self.hb.to(fences));
        starts.then(&self.sc_before().then(&ends))
    }

    /// psc, second form: hb, or hb, eco, hb, between sc fences.
    #[tactic(auto, unfolding(consistency::specs::Computed::psc_fence_rows))]
    fn fence_sc(&self) -> Relation
        ensures { result.rows ≡ psc_fence_rows (view self.now.base.graph.now) }
    {
        let fences = sc_fences(self.base.graph);
        let around = self.hb.then(&self.eco.then(&self.hb));
        self.hb.union(&around).to(fences).from(fences)
    }

    /// psc in its two forms.
    #[tactic(auto, unfolding(consistency::specs::Computed::psc_rows))]
    fn sc_steps(&self) -> Relation
        ensures { result.rows ≡ psc_rows (view self.now.base.graph.now) }
    {
        self.partial_sc().union(&self.fence_sc())
    }

    /// If no event a has a hb a, or a hb b with b eco a.
    #[tactic(auto, unfolding(consistency::specs::Computed::keeps_2))]
    pub(crate) fn is_coherent(&self) -> bool
        ensures { result ≡ keeps_2 (view self.now.base.graph.now) }
    {
        self.hb.is_irreflexive() && self.hb.then(&self.eco).is_irreflexive()
    }

    /// If each update stands in mo directly after its source.
    #[tactic(auto, unfolding(consistency::specs::Computed::keeps_3))]
    pub(crate) fn is_atomic(&self) -> bool
        ensures { result ≡ keeps_3 (view self.now.base.graph.now) }
    {
        let directly = self.mo.without(&self.mo.then(&self.mo));
        let updating = self.base.rf.to(updates(self.base.graph));
        updating.is_within(&directly)
    }

    /// If psc has no cycle.
    #[tactic(auto, unfolding(consistency::specs::Computed::keeps_4))]
    pub(crate) fn is_sc_ordered(&self) -> bool
        ensures { result ≡ keeps_4 (view self.now.base.graph.now) }
    {
        self.sc_steps().closure().is_irreflexive()
    }
}
