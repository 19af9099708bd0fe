//! The claim that a graph is one of a program.
ghost use Rattle.std.specs.Prelude.{◌≡◌};
ghost use Rattle.programs.specs.Parts.{bodies};
ghost use Rattle.outcomes.specs.Values.{target, reads_into, value_of, held};

use events::event::*;
use graph::graph::Graph;
use lang::syntax::*;
use programs::threads::*;

/// A program and a graph that is said to be one of it.
#[derive(Clone, Copy)]
pub(crate) struct Claim<'a> {
    pub(crate) program: &'a Program,
    pub(crate) graph: &'a Graph,
}

/// The register that a statement reads into.
fn target(statement: Statement) -> Option<Register>
    ensures { result ≡ target statement }
{
    match statement {
        Statement::Load { register, .. } => Some(register),
        Statement::Store { .. } => None,
        Statement::Exchange { register, .. } => Some(register),
        Statement::Add { register, .. } => Some(register),
        Statement::Fence { .. } => None,
    }
}

/// If a statement, where there is one, reads into a register. That is given by its number, as an outcome counts its values.
fn reads_into(statement: Option<Statement>, register: usize) -> bool
    ensures { result ≡ reads_into statement register }
{
    statement
        .and_then(target)
        .is_some_and(|filled| filled.index() == register)
}

/// The value of an access; 0 where there is none, as registers start.
pub(crate) fn value_of(access: Option<Access>) -> u8
    ensures { result ≡ value_of access }
{
    access.map_or(0, |access| access.value)
}

impl Claim<'_> {
    /// What a register of a thread holds before a place: the last value read into it, which is looked for backwards from there.
    pub(crate) fn held(&self, thread: usize, register: usize, place: usize) -> u8
        ensures { result ≡ held (bodies self.now.program.now) self.now.graph.now.events thread register place }
    {
        // With `find` the proof did not close: no lemma of the library says what a range gives backwards.
        for at in (0..place).rev() {
            if reads_into(self.program.statement(thread, at), register) {
                let event = self.program.event(thread, at);
                return value_of(event.and_then(|e| self.graph.read(e)));
            }
        }
        0
    }
}
