//! What registers and locations hold at the end.
ghost use Rattle.std.specs.Prelude.{◌≡◌, ◌<◌, map};
ghost use Rattle.lang.specs.Numbering.{location_index};
ghost use Rattle.programs.specs.Parts.{bodies};
ghost use Rattle.orders.specs.Orders.{members};
ghost use Rattle.outcomes.specs.Outcomes.{location_value, outcome_value, outcome_of, OutcomeOf};

use super::claim::*;
use super::outcome::*;
use graph::graph::Graph;
use lang::syntax::*;
use programs::threads::*;
use std::array;

/// The registers of a thread.
const REGISTERS: usize = 4;

impl Claim<'_> {
    /// What a location holds at the end: the value of its last write.
    fn location_value(&self, location: Location) -> u8
        ensures { result ≡ location_value self.now.graph.now.events (map members self.now.graph.now.mo) (location_index location) }
    {
        let last = self.graph.order(location).last();
        value_of(last.and_then(|write| self.graph.written(usize::from(write))))
    }

    /// A value of the outcome, by its place in it.
    fn value_at(&self, at: usize) -> u8
        requires { at < 20 }
        ensures { result ≡ outcome_value (bodies self.now.program.now) self.now.graph.now.events (map members self.now.graph.now.mo) at }
    {
        if at < REGISTER_VALUES {
            self.held(at / REGISTERS, at % REGISTERS, MAX_STATEMENTS)
        } else {
            self.location_value(Location::ALL[at - REGISTER_VALUES])
        }
    }
}

/// The outcome of a graph of a program.
pub fn outcome_of(program: &Program, graph: &Graph) -> Outcome
    ensures value { result.values ≡ outcome_of (bodies program.now) graph.now.events (map members graph.now.mo) }
    ensures meaning { OutcomeOf (bodies program.now) graph.now.events (map members graph.now.mo) result.values }
{
    let claim = Claim { program, graph };
    Outcome {
        values: array::from_fn(|at| claim.value_at(at)),
    }
}
