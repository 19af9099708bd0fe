//! A mapping of one's own, as an example of how to write one: a fence before each sc `ld` that an `st` of its thread precedes.
//!
//! What is needed: the meaning as a definition in specs/, the function that answers it, and the laws, with lemmas in specs/: that the
//! fence rule holds, that nothing is placed past the thread's end, and that nothing but an `st` is locked. Both layers can then be
//! piled on it.
#![tactic(auto)]

ghost use Rattle.std.specs.Prelude.{◌≡◌};
ghost use Rattle.programs.specs.Parts.{body};
ghost use Rattle.watchful.specs.Meaning.{watchful, preceded};
ghost use Rattle.watchful.specs.Law.{watchful_fenced, watchful_ended, watchful_stores};

use lang::syntax::Statement;
use mapping::interface::Mapping;
use mapping::kinds::*;
use mapping::placement::Placement;
use programs::threads::Thread;

/// A fence before each sc `ld` that an `st` precedes.
#[derive(Clone, Copy)]
pub struct Watchful;

/// If an `st` stands before a place.
fn store_before(thread: &Thread, at: usize) -> bool
    ensures { result ≡ preceded (body thread.now) at }
{
    thread
        .as_slice()
        .iter()
        .take(at)
        .any(|statement| matches!(statement, Statement::Store { .. }))
}

impl Mapping for Watchful {
    ghost meaning = { λ _. watchful };

    ghost fenced = { λ _. watchful_fenced };

    ghost ended = { λ _. watchful_ended };

    ghost stores = { λ _. watchful_stores };

    fn place(&self, thread: &Thread, at: usize) -> Placement {
        Placement {
            before: sc_load_at(thread, at) && store_before(thread, at),
            ..Placement::NONE
        }
    }
}
