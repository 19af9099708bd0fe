//! The parts of compiled code, as they are read.
ghost use Rattle.std.specs.Prelude.{◌≡◌, ◌≤◌, map};
ghost use Rattle.compiler.specs.Compiled.{instructions_of, threads_of, instruction_at, instruction_count};

use super::code::*;
use programs::threads::*;

impl Code {
    /// The code of each thread, in order.
    pub fn threads(&self) -> &[ThreadCode]
        ensures { map instructions_of result.now ≡ threads_of self.now }
    {
        self.threads.as_slice()
    }

    /// The program that was compiled.
    pub fn source(&self) -> Program
        ensures { result ≡ self.now.source }
    {
        self.source
    }

    /// The number of instructions of a thread; 0 where there is no such thread.
    pub fn instructions(&self, thread: usize) -> usize
        ensures value { result ≡ instruction_count (threads_of self.now) thread }
        ensures bound { result ≤ 24 }
    {
        self.threads().get(thread).map_or(0, |code| code.len())
    }

    /// The instruction at an index of a thread, if there is one.
    pub fn instruction(&self, thread: usize, at: usize) -> Option<Instruction>
        ensures { result ≡ instruction_at (threads_of self.now) thread at }
    {
        self.threads().get(thread)?.get(at)
    }
}
