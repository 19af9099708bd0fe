//! Compiled code: the instructions of each thread, with the program that they came from.
ghost use Rattle.std.specs.Prelude.{◌≡◌, length};
ghost use Rattle.programs.specs.Entries.{entries};

use lang::syntax::*;
use programs::bounded::Bounded;
use programs::threads::*;

/// The most instructions that a thread has: a fence before, one of its own and a fence after each statement.
pub const MAX_INSTRUCTIONS: usize = 24;

/// An x86 instruction, with the place of the statement that it came from; a placed fence has none.
#[derive(Clone, Copy, PartialEq, Eq)]
pub enum Instruction {
    /// `mov R,[L]`
    Load {
        place: usize,
        register: Register,
        location: Location,
    },
    /// `mov [L],V`, a plain store
    Store {
        place: usize,
        location: Location,
        operand: Operand,
    },
    /// `xchg [L],V`, a locked store
    LockedStore {
        place: usize,
        location: Location,
        operand: Operand,
    },
    /// `xchg R,[L],V`
    Exchange {
        place: usize,
        register: Register,
        location: Location,
        operand: Operand,
    },
    /// `lock xadd R,[L],V`
    Add {
        place: usize,
        register: Register,
        location: Location,
        operand: Operand,
    },
    /// `mfence` for a `fence sc`
    Fence {
        place: usize,
    },
    /// `mfence` that the mapping placed
    PlacedFence,
}

/// The instructions of a thread.
pub type ThreadCode = Bounded<Instruction, 0, MAX_INSTRUCTIONS>;

/// A program with the instructions of each of its threads.
#[derive(Clone, Copy)]
pub struct Code {
    pub(crate) source: Program,
    pub(crate) threads: Bounded<ThreadCode, 0, MAX_THREADS>,
    ghost each: { length (entries threads) ≡ length (entries source) },
}
