//! Compiles the texts that data/INDEX names under every published mapping and a mapping of one's own, each alone and below the layers,
//! and prints the instructions of each thread on a line. The lines to compare with came from a script that the compiler's author wrote.
#![tactic(auto)]

#[cfg(test)]
mod hand;

use anyhow::Context;
use compiler::code::*;
use compiler::compile;
use layers::exchange::*;
use layers::sparing::*;
use mapping::interface::Mapping;
use mapping::published::*;
use programs::threads::Program;
use std::{fs, io};
use watchful::Watchful;

fn print_thread(rt: &HostRuntime, number: usize, code: &ThreadCode) -> io::Result<()> {
    print!(rt; "{number}:")?;
    for (at, instruction) in code.as_slice().iter().enumerate() {
        let parted = if at == 0 { " " } else { "; " };
        print!(rt; "{parted}{instruction}")?;
    }
    println!(rt; "")
}

fn print_code<M: Mapping>(rt: &HostRuntime, mapping: &M, program: &Program) -> io::Result<()> {
    let code = compile(mapping, program);
    for (number, code) in code.threads().iter().enumerate() {
        print_thread(rt, number, code)?;
    }
    Ok(())
}

/// A mapping alone, and below the layers in each order.
fn print_piles<M: Mapping + Copy>(
    rt: &HostRuntime,
    name: &str,
    base: &str,
    mapping: M,
    program: &Program,
) -> io::Result<()> {
    println!(rt; "{name} {base}")?;
    print_code(rt, &mapping, program)?;
    println!(rt; "{name} {base} sparing")?;
    print_code(rt, &Sparing(mapping), program)?;
    println!(rt; "{name} {base} exchange")?;
    print_code(rt, &Exchange(mapping), program)?;
    println!(rt; "{name} {base} sparing exchange")?;
    print_code(rt, &Exchange(Sparing(mapping)), program)?;
    println!(rt; "{name} {base} exchange sparing")?;
    print_code(rt, &Sparing(Exchange(mapping)), program)
}

fn print_program(rt: &HostRuntime, name: &str, program: &Program) -> io::Result<()> {
    print_piles(rt, name, "trailing", Trailing, program)?;
    print_piles(rt, name, "locked", Locked, program)?;
    print_piles(rt, name, "leading", Leading, program)?;
    print_piles(rt, name, "watchful", Watchful, program)
}

fn print_text(rt: &HostRuntime, name: &str) -> anyhow::Result<()> {
    let path = format!(in rt.alloc(); "{name}.litmus")?;
    let text = fs::read(rt, path.as_str())?;
    // `ok`, since the fault would be printed as the cause.
    let program = reader::read(text.as_slice())
        .ok()
        .context("a text in data/ is no program")?;
    print_program(rt, name, &program)?;
    Ok(())
}

fn run(rt: &HostRuntime) -> anyhow::Result<()> {
    let index = fs::read_to_string(rt, "INDEX")?;
    for name in index.as_str().lines() {
        print_text(rt, name)?;
    }
    Ok(())
}

fn main(rt: HostRuntime) -> anyhow::Result<()> {
    run(&rt)
}
