//! The three published mappings.
ghost use Rattle.mapping.specs.Published.{trailing, locking, leading};
ghost use Rattle.mapping.specs.Laws.{trailing_fenced, trailing_ended, trailing_stores, locking_fenced, locking_ended, locking_stores, leading_fenced, leading_ended, leading_stores};

use super::interface::Mapping;
use super::kinds::*;
use super::placement::Placement;
use programs::threads::Thread;

/// A fence after each sc `st`.
#[derive(Clone, Copy)]
pub struct Trailing;

/// Each sc `st` locked.
#[derive(Clone, Copy)]
pub struct Locked;

/// A fence before each sc `ld`.
#[derive(Clone, Copy)]
pub struct Leading;

impl Mapping for Trailing {
    ghost meaning = { λ _. trailing };

    ghost fenced = { λ _. trailing_fenced };

    ghost ended = { λ _. trailing_ended };

    ghost stores = { λ _. trailing_stores };

    fn place(&self, thread: &Thread, at: usize) -> Placement {
        Placement {
            after: sc_store_at(thread, at),
            ..Placement::NONE
        }
    }
}

impl Mapping for Locked {
    ghost meaning = { λ _. locking };

    ghost fenced = { λ _. locking_fenced };

    ghost ended = { λ _. locking_ended };

    ghost stores = { λ _. locking_stores };

    fn place(&self, thread: &Thread, at: usize) -> Placement {
        Placement {
            locked: sc_store_at(thread, at),
            ..Placement::NONE
        }
    }
}

impl Mapping for Leading {
    ghost meaning = { λ _. leading };

    ghost fenced = { λ _. leading_fenced };

    ghost ended = { λ _. leading_ended };

    ghost stores = { λ _. leading_stores };

    fn place(&self, thread: &Thread, at: usize) -> Placement {
        Placement {
            before: sc_load_at(thread, at),
            ..Placement::NONE
        }
    }
}
