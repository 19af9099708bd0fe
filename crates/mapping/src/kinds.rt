//! The kinds of statements that mappings look at.
ghost use Rattle.std.specs.Prelude.{◌≡◌};
ghost use Rattle.programs.specs.Parts.{body};
ghost use Rattle.mapping.specs.Kinds.{is_store, is_sc_store, is_sc_load, holds_at};

use lang::syntax::*;
use programs::threads::Thread;

/// If an `st` stands at a place.
pub fn store_at(thread: &Thread, at: usize) -> bool
    ensures { result ≡ holds_at is_store (body thread.now) at }
{
    matches!(thread.get(at), Some(Statement::Store { .. }))
}

/// If an sc `st` stands at a place.
pub fn sc_store_at(thread: &Thread, at: usize) -> bool
    ensures { result ≡ holds_at is_sc_store (body thread.now) at }
{
    matches!(thread.get(at), Some(Statement::Store { mode, .. }) if mode.is_sc())
}

/// If an sc `ld` stands at a place.
pub fn sc_load_at(thread: &Thread, at: usize) -> bool
    ensures { result ≡ holds_at is_sc_load (body thread.now) at }
{
    matches!(thread.get(at), Some(Statement::Load { mode, .. }) if mode.is_sc())
}
