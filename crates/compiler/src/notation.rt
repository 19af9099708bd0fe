//! How instructions are written.
ghost use Rattle.std.specs.Prelude.{Some};
ghost use Rattle.compiler.specs.Notation.{instruction_text};

use super::code::Instruction;
use lang::spelling::*;
use std::fmt;

impl fmt::Display for Instruction {
    ghost output = { λ x. Some (instruction_text x) };

    fn fmt<W: fmt::Write>(&self, f: &mut fmt::Formatter<W>) -> fmt::Result {
        match *self {
            Instruction::Load {
                register,
                location,
                ..
            } => write!(f, "mov {register},[{location}]"),
            Instruction::Store {
                location,
                operand,
                ..
            } => write!(f, "mov [{location}],{operand}"),
            Instruction::LockedStore {
                location,
                operand,
                ..
            } => write!(f, "xchg [{location}],{operand}"),
            Instruction::Exchange {
                register,
                location,
                operand,
                ..
            } => { write!(f, "xchg {register},[{location}],{operand}") }
            Instruction::Add {
                register,
                location,
                operand,
                ..
            } => { write!(f, "lock xadd {register},[{location}],{operand}") }
            Instruction::Fence { .. } => f.write_str("mfence"),
            Instruction::PlacedFence => f.write_str("mfence"),
        }
    }
}
