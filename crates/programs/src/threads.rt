//! Threads and programs.
ghost use Rattle.std.specs.Prelude.{◌≡◌, ◌≤◌, if◌then◌else◌, Some, None, nat_lt};
ghost use Rattle.programs.specs.Parts.{bodies, statement_at, statement_count, event_number};

use super::bounded::*;
use super::parts::*;
use lang::syntax::Statement;

/// The most statements that a thread has.
pub const MAX_STATEMENTS: usize = 8;

/// The most threads that a program has.
pub const MAX_THREADS: usize = 4;

/// 1 to 8 statements.
pub type Thread = Bounded<Statement, 1, MAX_STATEMENTS>;

/// 1 to 4 threads.
pub type Program = Bounded<Thread, 1, MAX_THREADS>;

impl Bounded<Thread, 1, MAX_THREADS> {
    /// The number of statements of a thread; 0 where there is no such thread.
    pub fn statements(&self, thread: usize) -> usize
        ensures value { result ≡ statement_count (bodies self.now) thread }
        ensures bound { result ≤ 8 }
    {
        self.as_slice().get(thread).map_or(0, |thread| thread.len())
    }

    /// The statement at a thread and a place, if there is one.
    pub fn statement(&self, thread: usize, place: usize) -> Option<Statement>
        ensures { result ≡ statement_at (bodies self.now) thread place }
    {
        self.as_slice().get(thread)?.get(place)
    }

    /// The number of the event at a thread and a place, 8 × thread + place, if there is a statement.
    pub fn event(&self, thread: usize, place: usize) -> Option<usize>
        ensures { result ≡ (if nat_lt place (statement_count (bodies self.now) thread) then Some (event_number thread place) else None) }
    {
        let is_there = thread < MAX_THREADS && place < self.statements(thread);
        is_there.then(|| MAX_STATEMENTS * thread + place)
    }
}
