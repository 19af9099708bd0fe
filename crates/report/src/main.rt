//! Reads a program text from standard input and prints its events, one a line, or the line with which it is refused.
#![tactic(auto)]

use anyhow::bail;
use programs::threads::*;
use std::process::ExitCode;
use std::{env, io};

const HELP: &str = "\
usage: report < PROGRAM

Reads a program text from standard input and prints its events, one a line:
thread.place and the statement. A text that is no program is answered by
`refused N pass P place Q`.

A program is 1 to 4 lines, each a thread of 1 to 8 statements parted by `;`:
  ld R L M       R gets L                    M: rlx acq sc
  st L V M       L gets V                    M: rlx rel sc
  xchg R L V M   R gets old L, L gets V      M: rlx acq rel ar sc
  add R L V M    R gets old L, L gets L + V  M: rlx acq rel ar sc
  fence M        orders only                 M: acq rel ar sc
L is x, y, z or w; R is r0 to r3; V is a register or a number from 0 to 255.";

/// If the words on the command line ask for help; no others are taken.
fn asks_for_help(rt: &HostRuntime) -> anyhow::Result<bool> {
    match env::args(rt)?.nth(1) {
        None => Ok(false),
        Some(word) if word.as_str() == "--help" => Ok(true),
        Some(_) => bail!("no word is taken but --help; the program comes on standard input"),
    }
}

fn print_thread(rt: &HostRuntime, number: usize, thread: &Thread) -> io::Result<()> {
    for (place, statement) in thread.as_slice().iter().enumerate() {
        println!(rt; "{number}.{place} {statement}")?;
    }
    Ok(())
}

fn print_program(rt: &HostRuntime, program: &Program) -> io::Result<()> {
    for (number, thread) in program.as_slice().iter().enumerate() {
        print_thread(rt, number, thread)?;
    }
    Ok(())
}

fn run(rt: &HostRuntime) -> anyhow::Result<()> {
    if asks_for_help(rt)? {
        println!(rt; "{HELP}")?;
    } else {
        console::answer(rt, |program| print_program(rt, program))?;
    }
    Ok(())
}

fn main(rt: HostRuntime) -> ExitCode {
    console::status(&rt, "report", run(&rt))
}
