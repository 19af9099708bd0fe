//! The parts of a graph, read from a line: for each reading event its number, its source and the value, then behind a `;` each the writes of
//! x, y, z and w in order.
use anyhow::bail;
use events::event::*;
use graph::graph::Graph;
use lang::syntax::*;
use orders::order::{self, Order};
use programs::parts::*;
use programs::threads::*;

/// What a reading event read, and from which event.
#[derive(Clone, Copy)]
struct Read {
    source: u8,
    value: u8,
}

/// What a line gives.
#[derive(Clone, Copy)]
pub(crate) struct Parts {
    reads: [Option<Read>; STATEMENTS],
    mo: [Order; LOCATIONS],
}

/// The reads that a section names: numbers by threes.
fn reads_of(section: &str) -> anyhow::Result<[Option<Read>; STATEMENTS]> {
    let mut reads = [None; STATEMENTS];
    let mut words = section.split_whitespace();
    while let Some(event) = words.next() {
        let event: usize = event.parse()?;
        let read = Read {
            source: words.next().unwrap_or("").parse()?,
            value: words.next().unwrap_or("").parse()?,
        };
        let Some(noted) = reads.get_mut(event) else {
            bail!("a line of data/ has a read of no statement");
        };
        *noted = Some(read);
    }
    Ok(reads)
}

/// The order of the writes that a section names.
fn order_of(section: &str) -> anyhow::Result<Order> {
    let mut order = order::new();
    for word in section.split_whitespace() {
        if order.push(word.parse()?).is_err() {
            bail!("a line of data/ has too many writes");
        }
    }
    Ok(order)
}

impl Parts {
    /// The parts that a line gives; a section that is missing names nothing, so that such parts are no graph.
    pub(crate) fn read(line: &str) -> anyhow::Result<Parts> {
        let mut sections = line.split(';');
        let reads = reads_of(sections.next().unwrap_or(""))?;
        let mut mo = [order::new(); LOCATIONS];
        for order in &mut mo {
            *order = order_of(sections.next().unwrap_or(""))?;
        }
        Ok(Parts { reads, mo })
    }

    /// The graph of these parts with the events of a program.
    pub(crate) fn graph(&self, program: &Program) -> Option<Graph> {
        let mut events = [None; STATEMENTS];
        let threads = program.as_slice().iter();
        let reads = self.reads.chunks(MAX_STATEMENTS);
        for ((thread, reads), events) in threads.zip(reads).zip(events.chunks_mut(MAX_STATEMENTS)) {
            run(thread, reads, events);
        }
        let sources = self.reads.map(|read| read.map(|read| read.source));
        Graph::new(events, sources, self.mo)
    }
}

/// The registers of a thread, which start at 0.
#[derive(Clone, Copy)]
struct Registers([u8; 4]);

impl Registers {
    /// The value of an operand.
    fn value(&self, operand: Operand) -> u8 {
        match operand {
            Operand::Held(register) => self.0[register.index()],
            Operand::Value(value) => value,
        }
    }

    /// The event of a statement, by the value that it reads: not asked of `outcomes`, since `is_graph_of` is to compare this with its own.
    fn event(&self, statement: Statement, read: u8) -> Event {
        match statement {
            Statement::Load { location, mode, .. } => Event::Load {
                location,
                mode,
                read,
            },
            Statement::Store {
                location,
                operand,
                mode,
            } => Event::Store {
                location,
                mode,
                written: self.value(operand),
            },
            Statement::Exchange {
                location,
                operand,
                mode,
                ..
            } => Event::Update {
                location,
                mode,
                read,
                written: self.value(operand),
            },
            Statement::Add {
                location,
                operand,
                mode,
                ..
            } => Event::Update {
                location,
                mode,
                read,
                written: read.wrapping_add(self.value(operand)),
            },
            Statement::Fence { mode } => Event::Fence { mode },
        }
    }

    /// Writes a value read into the register that the statement names.
    fn keep(&mut self, statement: Statement, read: u8) {
        match statement {
            Statement::Load { register, .. } => self.0[register.index()] = read,
            Statement::Store { .. } => {}
            Statement::Exchange { register, .. } => self.0[register.index()] = read,
            Statement::Add { register, .. } => self.0[register.index()] = read,
            Statement::Fence { .. } => {}
        }
    }
}

/// Runs a thread over the values that its events read, and notes its events.
fn run(thread: &Thread, reads: &[Option<Read>], events: &mut [Option<Event>]) {
    let mut registers = Registers([0; 4]);
    for ((statement, read), event) in thread.as_slice().iter().zip(reads).zip(events) {
        let value = read.map_or(0, |read| read.value);
        *event = Some(registers.event(*statement, value));
        registers.keep(*statement, value);
    }
}
