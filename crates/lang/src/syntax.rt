//! What a statement is made of.

/// How strongly an access or a fence orders others.
#[derive(Clone, Copy, PartialEq, Eq)]
pub enum Mode {
    Relaxed,
    Acquire,
    Release,
    AcquireRelease,
    SeqCst,
}

/// A shared memory cell.
#[derive(Clone, Copy, PartialEq, Eq)]
pub enum Location {
    X = 0,
    Y = 1,
    Z = 2,
    W = 3,
}

/// A register; each thread has four of its own, which start at 0.
#[derive(Clone, Copy, PartialEq, Eq)]
pub enum Register {
    R0 = 0,
    R1 = 1,
    R2 = 2,
    R3 = 3,
}

/// What a statement stores or adds: a register's value or a number.
#[derive(Clone, Copy, PartialEq, Eq)]
pub enum Operand {
    Held(Register),
    Value(u8),
}

/// One step of a thread. An operand is read before the register is changed.
#[derive(Clone, Copy, PartialEq, Eq)]
pub enum Statement {
    /// The register gets what the location holds.
    Load {
        register: Register,
        location: Location,
        mode: Mode,
    },
    /// The location gets the operand.
    Store {
        location: Location,
        operand: Operand,
        mode: Mode,
    },
    /// The register gets what the location held, the location gets the operand.
    Exchange {
        register: Register,
        location: Location,
        operand: Operand,
        mode: Mode,
    },
    /// The register gets what the location held, the location gets that plus the operand, modulo 256.
    Add {
        register: Register,
        location: Location,
        operand: Operand,
        mode: Mode,
    },
    /// Orders only.
    Fence {
        mode: Mode,
    },
}

impl Location {
    /// The locations, in the order of their numbers.
    pub const ALL: [Location; 4] = [Location::X, Location::Y, Location::Z, Location::W];
}
