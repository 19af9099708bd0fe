//! If a graph is one of a program.
ghost use Rattle.std.specs.Prelude.{◌≡◌, ◌/◌, ◌%◌, Decides};
ghost use Rattle.programs.specs.Parts.{bodies};
ghost use Rattle.events.specs.Events.{read_at};
ghost use Rattle.outcomes.specs.Values.{held, operand_value, value_of};
ghost use Rattle.outcomes.specs.Source.{event_of, expected, EventFits, GraphOf};

use super::claim::*;
use events::event::*;
use graph::graph::Graph;
use lang::syntax::*;
use programs::threads::*;

impl Claim<'_> {
    /// What an operand stands for before an event.
    fn operand_value(&self, e: usize, operand: Operand) -> u8
        ensures { result ≡ operand_value (λ x. held (bodies self.now.program.now) self.now.graph.now.events (e / 8) x (e % 8)) operand }
    {
        match operand {
            Operand::Held(register) => self.held(
                e / MAX_STATEMENTS,
                register.index(),
                e % MAX_STATEMENTS,
            ),
            Operand::Value(value) => value,
        }
    }

    /// What a statement does as an event, by the values read in the graph.
    fn event_of(&self, e: usize, statement: Statement) -> Event
        ensures { result ≡ event_of statement (λ x. held (bodies self.now.program.now) self.now.graph.now.events (e / 8) x (e % 8)) (value_of (read_at self.now.graph.now.events e)) }
    {
        let read = value_of(self.graph.read(e));
        match statement {
            Statement::Load { location, mode, .. } => Event::Load {
                location,
                mode,
                read,
            },
            Statement::Store {
                location,
                operand,
                mode,
            } => Event::Store {
                location,
                mode,
                written: self.operand_value(e, operand),
            },
            Statement::Exchange {
                location,
                operand,
                mode,
                ..
            } => Event::Update {
                location,
                mode,
                read,
                written: self.operand_value(e, operand),
            },
            Statement::Add {
                location,
                operand,
                mode,
                ..
            } => Event::Update {
                location,
                mode,
                read,
                written: read.wrapping_add(self.operand_value(e, operand)),
            },
            Statement::Fence { mode } => Event::Fence { mode },
        }
    }

    /// The event that the program has, by the values read in the graph.
    fn expected(&self, e: usize) -> Option<Event>
        ensures { result ≡ expected (bodies self.now.program.now) self.now.graph.now.events (e / 8) (e % 8) }
    {
        let statement = self
            .program
            .statement(e / MAX_STATEMENTS, e % MAX_STATEMENTS)?;
        Some(self.event_of(e, statement))
    }

    /// If an event is the program's.
    fn event_fits(&self, e: usize) -> bool
        ensures { Decides result (EventFits (bodies self.now.program.now) self.now.graph.now.events (e / 8) (e % 8)) }
    {
        // Most numbers have no statement: there nothing is compared, and it is only asked if an event stands.
        match self.expected(e) {
            Some(event) => self.graph.event(e) == Some(event),
            None => self.graph.event(e).is_none(),
        }
    }
}

/// If a graph is one of a program.
pub fn is_graph_of(graph: &Graph, program: &Program) -> bool
    ensures { Decides result (GraphOf (bodies program.now) graph.now.events) }
{
    let claim = Claim { program, graph };
    (0..STATEMENTS).all(|e| claim.event_fits(e))
}
