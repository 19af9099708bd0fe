//! Judges executions. data/litmus has published litmus tests, each with every execution that has the outcome asked for: a test is allowed if
//! one of them is consistent. data/reports has executions of programs, for which the outcome, the number of hb pairs and the order to the
//! outcome before are printed. data/rules has executions that each keep or break a rule, and parts that are no graph. What to compare with
//! comes from the literature, from an independent model, and for the last by hand from the rules.
#![tactic(auto)]

mod parts;

use anyhow::{Context, bail, ensure};
use consistency::verdict::number;
use graph::graph::Graph;
use outcomes::outcome::*;
use outcomes::{is_graph_of, outcome_of};
use parts::Parts;
use programs::threads::Program;
use rc11::{hb_pairs, verdict};
use std::cmp::Ordering;
use std::{fs, io};

/// The program of a line, its threads parted by `/`.
fn program_of(rt: &HostRuntime, line: &str) -> anyhow::Result<Program> {
    let mut text = Vec::new(rt.alloc());
    for byte in line.bytes() {
        text.push(if byte == b'/' { b'\n' } else { byte })?;
    }
    // `ok`, since the fault would be printed as the cause.
    reader::read(text.as_slice())
        .ok()
        .context("a line of data/ is no program")
}

/// The graph of a line, which has to be one of the program.
fn graph_of(program: &Program, line: &str) -> anyhow::Result<Graph> {
    let graph = Parts::read(line)?
        .graph(program)
        .context("a line of data/ is no graph")?;
    ensure!(
        is_graph_of(&graph, program),
        "a line of data/ is no graph of its program"
    );
    Ok(graph)
}

/// Ends the line of a litmus test, if one was begun.
fn end_test(rt: &HostRuntime, allowed: Option<bool>) -> io::Result<()> {
    match allowed {
        Some(true) => println!(rt; "allowed"),
        Some(false) => println!(rt; "forbidden"),
        None => Ok(()),
    }
}

/// Prints for each litmus test if the outcome asked for is allowed: if one of its executions is consistent.
fn judge(rt: &HostRuntime, text: &str) -> anyhow::Result<()> {
    let mut program = None;
    let mut allowed = None;
    for line in text.lines() {
        match (line.split_once(' '), program) {
            (Some(("test", name)), _) => {
                end_test(rt, allowed)?;
                print!(rt; "{name} ")?;
                allowed = Some(false);
            }
            (Some(("program", source)), _) => program = Some(program_of(rt, source)?),
            (Some(("graph", parts)), Some(of)) => {
                if verdict(&graph_of(&of, parts)?).is_ok() {
                    allowed = Some(true);
                }
            }
            _ => bail!("a line of data/litmus is none"),
        }
    }
    end_test(rt, allowed)?;
    Ok(())
}

/// The outcome as five groups of eight hexadecimal digits, then the number of hb pairs.
fn print_graph(rt: &HostRuntime, outcome: &Outcome, graph: &Graph) -> io::Result<()> {
    for (at, value) in outcome.values().into_iter().enumerate() {
        print!(rt; "{value:02x}{}", if at % 4 == 3 { " " } else { "" })?;
    }
    print!(rt; "hb {}", hb_pairs(graph))
}

/// How an outcome stands to the one before, if there is one.
fn print_order(rt: &HostRuntime, before: Option<Outcome>, outcome: &Outcome) -> io::Result<()> {
    let Some(before) = before else {
        return println!(rt; "");
    };
    match before.compare(outcome) {
        Ordering::Less => println!(rt; " rising"),
        Ordering::Equal => println!(rt; " same"),
        Ordering::Greater => println!(rt; " falling"),
    }
}

/// Prints what each execution leaves.
fn show(rt: &HostRuntime, text: &str) -> anyhow::Result<()> {
    let mut program = None;
    let mut before = None;
    for line in text.lines() {
        match (line.split_once(' '), program) {
            (Some(("program", source)), _) => {
                program = Some(program_of(rt, source)?);
                before = None;
            }
            (Some(("graph", parts)), Some(of)) => {
                let graph = graph_of(&of, parts)?;
                let outcome = outcome_of(&of, &graph);
                print_graph(rt, &outcome, &graph)?;
                print_order(rt, before, &outcome)?;
                before = Some(outcome);
            }
            _ => bail!("a line of data/reports is none"),
        }
    }
    Ok(())
}

/// Prints the verdict on each execution.
fn judge_each(rt: &HostRuntime, text: &str) -> anyhow::Result<()> {
    let mut program = None;
    for line in text.lines() {
        match (line.split_once(' '), program) {
            (Some(("program", source)), _) => program = Some(program_of(rt, source)?),
            (Some(("graph", parts)), Some(of)) => match Parts::read(parts)?.graph(&of) {
                Some(graph) => println!(rt; "verdict {}", number(verdict(&graph)))?,
                None => println!(rt; "no graph")?,
            },
            _ => bail!("a line of data/rules is none"),
        }
    }
    Ok(())
}

fn run(rt: &HostRuntime) -> anyhow::Result<()> {
    judge(rt, fs::read_to_string(rt, "litmus")?.as_str())?;
    show(rt, fs::read_to_string(rt, "reports")?.as_str())?;
    judge_each(rt, fs::read_to_string(rt, "rules")?.as_str())
}

fn main(rt: HostRuntime) -> anyhow::Result<()> {
    run(&rt)
}
