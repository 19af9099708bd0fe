//! How the parts of a program are written out.
ghost use Rattle.std.specs.Prelude.{◌≡◌, Some};
ghost use Rattle.lang.specs.Spelling.{mode_name, location_name, register_name, operand_text, statement_text};

use super::syntax::*;
use std::fmt;

impl Mode {
    /// The word for this mode.
    pub fn name(self) -> &'static str
        ensures { result.now ≡ mode_name self }
    {
        match self {
            Mode::Relaxed => "rlx",
            Mode::Acquire => "acq",
            Mode::Release => "rel",
            Mode::AcquireRelease => "ar",
            Mode::SeqCst => "sc",
        }
    }
}

impl Location {
    /// The letter for this location.
    pub fn name(self) -> &'static str
        ensures { result.now ≡ location_name self }
    {
        match self {
            Location::X => "x",
            Location::Y => "y",
            Location::Z => "z",
            Location::W => "w",
        }
    }
}

impl Register {
    /// The word for this register.
    pub fn name(self) -> &'static str
        ensures { result.now ≡ register_name self }
    {
        match self {
            Register::R0 => "r0",
            Register::R1 => "r1",
            Register::R2 => "r2",
            Register::R3 => "r3",
        }
    }
}

// Three blocks for three types: no type parameter can stand for them, since an `impl` of the library's trait needs a type of this crate.
impl fmt::Display for Mode {
    ghost output = { λ m. Some (mode_name m) };

    fn fmt<W: fmt::Write>(&self, f: &mut fmt::Formatter<W>) -> fmt::Result {
        f.write_str(self.name())
    }
}

impl fmt::Display for Location {
    ghost output = { λ l. Some (location_name l) };

    fn fmt<W: fmt::Write>(&self, f: &mut fmt::Formatter<W>) -> fmt::Result {
        f.write_str(self.name())
    }
}

impl fmt::Display for Register {
    ghost output = { λ r. Some (register_name r) };

    fn fmt<W: fmt::Write>(&self, f: &mut fmt::Formatter<W>) -> fmt::Result {
        f.write_str(self.name())
    }
}

impl fmt::Display for Operand {
    ghost output = { λ v. Some (operand_text v) };

    fn fmt<W: fmt::Write>(&self, f: &mut fmt::Formatter<W>) -> fmt::Result {
        match *self {
            Operand::Held(register) => write!(f, "{register}"),
            Operand::Value(value) => write!(f, "{value}"),
        }
    }
}

/// The canonical form: the words of the statement with one space between them.
impl fmt::Display for Statement {
    ghost output = { λ s. Some (statement_text s) };

    fn fmt<W: fmt::Write>(&self, f: &mut fmt::Formatter<W>) -> fmt::Result {
        match *self {
            Statement::Load {
                register,
                location,
                mode,
            } => { write!(f, "ld {register} {location} {mode}") }
            Statement::Store {
                location,
                operand,
                mode,
            } => { write!(f, "st {location} {operand} {mode}") }
            Statement::Exchange {
                register,
                location,
                operand,
                mode,
            } => { write!(f, "xchg {register} {location} {operand} {mode}") }
            Statement::Add {
                register,
                location,
                operand,
                mode,
            } => { write!(f, "add {register} {location} {operand} {mode}") }
            Statement::Fence { mode } => write!(f, "fence {mode}"),
        }
    }
}
