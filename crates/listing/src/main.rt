//! Reads a program text from standard input and prints its x86 listing under the mapping and the layers that the words name.
#![tactic(auto)]

use anyhow::bail;
use compiler::code::*;
use compiler::compile;
use lang::syntax::*;
use mapping::interface::*;
use mapping::placement::*;
use piles::pile::*;
use programs::threads::*;
use std::process::ExitCode;
use std::slice::Iter;
use std::{env, io};

const HELP: &str = "\
usage: listing [trailing|locked|leading] [sparing|exchange]... < PROGRAM

Reads a program text from standard input and prints the x86 code of each of
its threads, with the statement that each instruction came from behind `#`.

  trailing   a fence after each sc st (taken when no mapping is named)
  locked     each sc st locked
  leading    a fence before each sc ld
  sparing    a layer: drops a fence with no plain store to flush
  exchange   a layer: locks a store in place of the fence after it

Layers are applied in the order given. A text that is no program is answered
by `refused N pass P place Q`.";

/// Takes one word more: a mapping may come first, layers after it.
fn take_word(pile: &mut Pile, first: bool, word: &str) -> anyhow::Result<()> {
    if first && let Ok(base) = word.parse() {
        pile.base = base;
        return Ok(());
    }
    let Ok(layer) = word.parse() else {
        bail!("accepted: [trailing|locked|leading] [sparing|exchange]..., or --help");
    };
    pile.layers.push(layer)?;
    Ok(())
}

/// The mapping and the layers that the words name; none where they ask for help.
fn asked(rt: &HostRuntime) -> anyhow::Result<Option<Pile>> {
    let mut pile = Pile {
        base: Base::Trailing,
        layers: Vec::new(rt.alloc()),
    };
    for (place, word) in env::args(rt)?.skip(1).enumerate() {
        if word.as_str() == "--help" {
            return Ok(None);
        }
        take_word(&mut pile, place == 0, word.as_str())?;
    }
    Ok(Some(pile))
}

/// The next instruction, which begins a line.
fn print_next(rt: &HostRuntime, code: &mut Iter<'_, Instruction>) -> io::Result<()> {
    match code.next() {
        Some(instruction) => print!(rt; "  {instruction}"),
        None => Ok(()),
    }
}

/// If a statement has no instruction of its own.
fn is_silent(statement: Statement) -> bool {
    matches!(statement, Statement::Fence { mode } if !mode.is_sc())
}

/// The lines of a statement, whose instructions come next.
fn print_statement(
    rt: &HostRuntime,
    code: &mut Iter<'_, Instruction>,
    placement: Placement,
    statement: Statement,
) -> io::Result<()> {
    if placement.before {
        print_next(rt, code)?;
        println!(rt; "")?;
    }
    if !is_silent(statement) {
        print_next(rt, code)?;
    }
    println!(rt; "  # {statement}")?;
    if placement.after {
        print_next(rt, code)?;
        println!(rt; "")?;
    }
    Ok(())
}

fn print_thread(
    rt: &HostRuntime,
    number: usize,
    thread: &Thread,
    plan: &Plan,
    code: &ThreadCode,
) -> io::Result<()> {
    println!(rt; "thread {number}")?;
    let mut rest = code.as_slice().iter();
    for (statement, placement) in thread.as_slice().iter().zip(plan) {
        print_statement(rt, &mut rest, *placement, *statement)?;
    }
    Ok(())
}

fn print_program(rt: &HostRuntime, pile: &Pile, program: &Program) -> io::Result<()> {
    let code = compile(pile, program);
    let threads = program.as_slice().iter().zip(code.threads());
    for (number, (thread, code)) in threads.enumerate() {
        print_thread(rt, number, thread, &pile.plan(thread), code)?;
    }
    Ok(())
}

fn run(rt: &HostRuntime) -> anyhow::Result<()> {
    match asked(rt)? {
        Some(pile) => console::answer(rt, |program| print_program(rt, &pile, program))?,
        None => println!(rt; "{HELP}")?,
    }
    Ok(())
}

fn main(rt: HostRuntime) -> ExitCode {
    console::status(&rt, "listing", run(&rt))
}
