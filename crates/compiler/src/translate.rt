//! From statements to instructions.
ghost use Rattle.std.specs.Prelude.{◌≡◌, ℕ, ◌+◌, ◌<◌, ◌≤◌, List, ◌++◌, map, length, Some};
ghost use Rattle.std.specs.Option.{option_to_list};
ghost use Rattle.std.specs.List.{slice_get};
ghost use Rattle.programs.specs.Parts.{body, bodies};
ghost use Rattle.compiler.specs.Compiled.{own, fence, at_statement, compiled_thread, instructions_of, threads_of};
ghost use Rattle.compiler.specs.Faithful.{Faithful};

use super::code::*;
use lang::syntax::*;
use mapping::interface::*;
use mapping::placement::*;
use programs::bounded::Bounded;
use programs::threads::*;

/// The instruction of a statement; a fence weaker than sc has none.
fn own_instruction(place: usize, statement: Statement, locked: bool) -> Option<Instruction>
    ensures { result ≡ own place statement locked }
{
    match statement {
        Statement::Load {
            register,
            location,
            ..
        } => Some(Instruction::Load {
            place,
            register,
            location,
        }),
        Statement::Store {
            location,
            operand,
            ..
        } if locked => Some(Instruction::LockedStore {
            place,
            location,
            operand,
        }),
        Statement::Store {
            location,
            operand,
            ..
        } => Some(Instruction::Store {
            place,
            location,
            operand,
        }),
        Statement::Exchange {
            register,
            location,
            operand,
            ..
        } => Some(Instruction::Exchange {
            place,
            register,
            location,
            operand,
        }),
        Statement::Add {
            register,
            location,
            operand,
            ..
        } => Some(Instruction::Add {
            place,
            register,
            location,
            operand,
        }),
        Statement::Fence { mode } if mode.is_sc() => Some(Instruction::Fence { place }),
        Statement::Fence { .. } => None,
    }
}

/// The fence that a mapping placed, if it did.
fn placed_fence(placed: bool) -> Option<Instruction>
    ensures { result ≡ fence placed }
{
    placed.then_some(Instruction::PlacedFence)
}

/// Adds an instruction, if there is one, to code with room for it.
fn append(code: &mut ThreadCode, instruction: Option<Instruction>)
    requires { length (instructions_of code.old) < 24 }
    ensures after { instructions_of code.new ≡ instructions_of code.old ++ option_to_list instruction }
    ensures bound { length (instructions_of code.new) ≤ length (instructions_of code.old) + 1 }
{
    if let Some(instruction) = instruction {
        code.push(instruction).unwrap();
    }
}

/// Adds what a statement is compiled to, to code with room for it.
fn append_statement(code: &mut ThreadCode, place: usize, placement: Placement, statement: Statement)
    requires { length (instructions_of code.old) + 3 ≤ 24 }
    ensures { instructions_of code.new ≡ instructions_of code.old ++ at_statement place placement statement }
{
    append(code, placed_fence(placement.before));
    append(code, own_instruction(place, statement, placement.locked));
    append(code, placed_fence(placement.after));
}

/// The code of a thread under a mapping.
fn compile_thread<M: Mapping>(mapping: &M, thread: &Thread) -> ThreadCode
    ensures { instructions_of result ≡ compiled_thread (M.Mapping.meaning mapping.now) (body thread.now) }
{
    let plan = mapping.plan(thread);
    let mut code = ThreadCode::empty(Instruction::PlacedFence);
    for (place, statement) in thread.as_slice().iter().enumerate() {
        append_statement(&mut code, place, planned(&plan, place), *statement);
    }
    code
}

/// The code of a program under a mapping.
pub fn compile<M: Mapping>(mapping: &M, program: &Program) -> Code
    ensures source { result.source ≡ program.now }
    ensures value { threads_of result ≡ map (compiled_thread (M.Mapping.meaning mapping.now)) (bodies program.now) }
    ensures faithful { (k : ℕ) (t : List Statement) (c : List Instruction) → slice_get (bodies program.now) k ≡ Some t → slice_get (threads_of result) k ≡ Some c → Faithful t c }
{
    let mut threads = Bounded::empty(ThreadCode::empty(Instruction::PlacedFence));
    for thread in program.as_slice() {
        threads.push(compile_thread(mapping, thread)).unwrap();
    }
    Code {
        source: *program,
        threads,
    }
}
