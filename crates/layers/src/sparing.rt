//! Drops a placed fence if no plain store stands between it and the last remaining flush before it, or the thread's start.
ghost use Rattle.std.specs.Prelude.{◌≡◌, ℕ, map};
ghost use Rattle.std.specs.List.{range_with_len};
ghost use Rattle.programs.specs.Parts.{body};
ghost use Rattle.mapping.specs.declared.placement.Placement.{Placement};
ghost use Rattle.layers.specs.Sparing.{spared, spared_at, settled, kept, still_pending, Spares};
ghost use Rattle.layers.specs.Spared.{spared_fenced, spared_ended, spared_stores};

use lang::syntax::*;
use mapping::interface::*;
use mapping::placement::*;
use programs::threads::*;

/// The mapping below without the fences that have nothing to flush.
#[derive(Clone, Copy)]
pub struct Sparing<M>(pub M);

/// If a store is pending in the buffer after a statement's own instruction, by whether one was before.
fn settle(statement: Option<Statement>, locked: bool, pending: bool) -> bool
    ensures { result ≡ settled statement locked pending }
{
    match statement {
        None => pending,
        Some(Statement::Load { .. }) => pending,
        Some(Statement::Store { .. }) if locked => false,
        Some(Statement::Store { .. }) => true,
        Some(Statement::Exchange { .. }) => false,
        Some(Statement::Add { .. }) => false,
        Some(Statement::Fence { mode }) => pending && !mode.is_sc(),
    }
}

/// What stays of what is placed at a statement, and if a store is pending after it, by whether one was before.
fn pass(statement: Option<Statement>, placement: Placement, pending: bool) -> (Placement, bool)
    ensures placement { result.0 ≡ kept statement placement pending }
    ensures pending { result.1 ≡ still_pending statement placement pending }
{
    let inside = settle(statement, placement.locked, pending && !placement.before);
    let kept = Placement {
        before: placement.before && pending,
        after: placement.after && inside,
        locked: placement.locked,
    };
    (kept, inside && !placement.after)
}

/// A plan without the fences that have nothing to flush.
pub fn spared_plan(thread: &Thread, below: Plan) -> Plan
    ensures { (f : ℕ → Placement) → below ≡ map f (range_with_len 0 8) → (result ≡ map (spared_at f (body thread.now)) (range_with_len 0 8)) × Spares f (spared_at f (body thread.now)) (body thread.now) }
{
    let mut plan = [Placement::NONE; MAX_STATEMENTS];
    let mut pending = false;
    // A loop, since what is pending goes from place to place: a closure that changes it would tell the proof nothing.
    for (at, placement) in below.iter().enumerate() {
        let (kept, left) = pass(thread.get(at), *placement, pending);
        plan[at] = kept;
        pending = left;
    }
    plan
}

impl<M: Mapping> Mapping for Sparing<M> {
    ghost meaning = { λ m. spared (M.Mapping.meaning m.0) };

    ghost fenced = { λ m. spared_fenced (M.Mapping.meaning m.0) (M.Mapping.fenced m.0) };

    ghost ended = { λ m. spared_ended (M.Mapping.meaning m.0) (M.Mapping.ended m.0) };

    ghost stores = { λ m. spared_stores (M.Mapping.meaning m.0) (M.Mapping.stores m.0) };

    fn place(&self, thread: &Thread, at: usize) -> Placement {
        planned(&self.plan(thread), at)
    }

    fn plan(&self, thread: &Thread) -> Plan {
        spared_plan(thread, self.0.plan(thread))
    }
}
