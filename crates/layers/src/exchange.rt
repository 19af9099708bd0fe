//! Makes an unlocked `st` with a fence after it a locked one without that fence.
ghost use Rattle.std.specs.Prelude.{◌≡◌, ℕ, map};
ghost use Rattle.std.specs.List.{range_with_len};
ghost use Rattle.programs.specs.Parts.{body};
ghost use Rattle.mapping.specs.declared.placement.Placement.{Placement};
ghost use Rattle.layers.specs.Exchange.{swapped, exchanged, exchanged_at};
ghost use Rattle.layers.specs.Exchanged.{exchanged_fenced, exchanged_ended, exchanged_stores};

use mapping::interface::*;
use mapping::kinds::store_at;
use mapping::placement::*;
use programs::threads::*;
use std::array;

/// The mapping below with locked stores in place of stores with a fence after them.
#[derive(Clone, Copy)]
pub struct Exchange<M>(pub M);

/// What is placed at a statement, by whether it is an `st` and what was placed.
fn swap(store: bool, placement: Placement) -> Placement
    ensures { result ≡ swapped store placement }
{
    if store && !placement.locked && placement.after {
        Placement {
            after: false,
            locked: true,
            ..placement
        }
    } else {
        placement
    }
}

/// A plan with locked stores in place of stores with a fence after them.
pub fn exchanged_plan(thread: &Thread, below: Plan) -> Plan
    ensures { (f : ℕ → Placement) → below ≡ map f (range_with_len 0 8) → result ≡ map (exchanged_at f (body thread.now)) (range_with_len 0 8) }
{
    array::from_fn(|at| swap(store_at(thread, at), planned(&below, at)))
}

impl<M: Mapping> Mapping for Exchange<M> {
    ghost meaning = { λ m. exchanged (M.Mapping.meaning m.0) };

    ghost fenced = { λ m. exchanged_fenced (M.Mapping.meaning m.0) (M.Mapping.fenced m.0) };

    ghost ended = { λ m. exchanged_ended (M.Mapping.meaning m.0) (M.Mapping.ended m.0) };

    ghost stores = { λ m. exchanged_stores (M.Mapping.meaning m.0) (M.Mapping.stores m.0) };

    fn place(&self, thread: &Thread, at: usize) -> Placement {
        swap(store_at(thread, at), self.0.place(thread, at))
    }

    fn plan(&self, thread: &Thread) -> Plan {
        exchanged_plan(thread, self.0.plan(thread))
    }
}
