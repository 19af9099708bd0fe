//! The interface of a mapping.
ghost use Rattle.std.specs.Prelude.{◌≡◌, ℕ, List, map, slice_index_or};
ghost use Rattle.std.specs.List.{range_with_len};
ghost use Rattle.lang.specs.declared.syntax.Statement.{Statement};
ghost use Rattle.programs.specs.Parts.{body};
ghost use Rattle.mapping.specs.declared.placement.Placement.{Placement};
ghost use Rattle.mapping.specs.Rule.{nothing, FenceRule, EndsWithThread, LocksStores};

use super::placement::*;
use programs::threads::*;
use std::array;

/// Where fences stand and which stores are locked, by a thread's statements and a place alone.
pub trait Mapping {
    /// What the mapping places at a place of a thread.
    ghost meaning: { Self → List Statement → ℕ → Placement };

    /// What is placed at a place of a thread, for any place.
    fn place(&self, thread: &Thread, at: usize) -> Placement
        ensures { result ≡ meaning self.now (body thread.now) at };

    /// What is placed at each place of a thread.
    fn plan(&self, thread: &Thread) -> Plan
        ensures { result ≡ map (meaning self.now (body thread.now)) (range_with_len 0 8) }
    {
        array::from_fn(|at| self.place(thread, at))
    }

    /// Between an sc `st` and a later sc `ld` of a thread stands a flush.
    ghost fenced: { (m : Self) → FenceRule (meaning m) };

    /// Nothing is placed past the thread's end.
    ghost ended: { (m : Self) → EndsWithThread (meaning m) };

    /// Nothing but an `st` is locked.
    ghost stores: { (m : Self) → LocksStores (meaning m) };
}

/// What a plan places at a place, for any place.
pub fn planned(plan: &Plan, at: usize) -> Placement
    ensures { result ≡ slice_index_or plan.now at nothing }
{
    plan.get(at).copied().unwrap_or(Placement::NONE)
}
