//! Reads the texts that data/INDEX names, each from its file NAME.in, and prints how each is answered. The answers to compare
//! with come from an independent model of the reader.
#![tactic(auto)]

#[cfg(test)]
mod limits;

use std::{fs, io};

/// Prints the name of a text and its answer.
fn print_answer(rt: &HostRuntime, name: &str) -> io::Result<()> {
    let path = format!(in rt.alloc(); "{name}.in")?;
    let text = fs::read(rt, path.as_str())?;
    match reader::read(text.as_slice()) {
        Ok(_) => println!(rt; "{name} accepted"),
        Err(fault) => println!(rt; "{name} {fault}"),
    }
}

fn run(rt: &HostRuntime) -> anyhow::Result<()> {
    let index = fs::read_to_string(rt, "INDEX")?;
    for name in index.as_str().lines() {
        print_answer(rt, name)?;
    }
    Ok(())
}

fn main(rt: HostRuntime) -> anyhow::Result<()> {
    run(&rt)
}
