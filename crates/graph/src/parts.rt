//! Graphs, made and read.
ghost use Rattle.std.specs.Prelude.{◌≡◌, [], map, is_some, Some, None, Decides, slice_index_or};
ghost use Rattle.lang.specs.Numbering.{location_index};
ghost use Rattle.events.specs.Events.{event_at, read_at, written_at};
ghost use Rattle.orders.specs.Orders.{members, position};
ghost use Rattle.graph.specs.Execution.{view};
ghost use Rattle.graph.specs.Formed.{Formed};

use super::check::*;
use super::graph::*;
use events::event::*;
use lang::syntax::*;
use orders::order::*;

impl Graph {
    /// The graph of these parts; none where the parts are not those of a graph.
    pub fn new(
        events: [Option<Event>; STATEMENTS],
        sources: [Option<u8>; STATEMENTS],
        mo: [Order; LOCATIONS],
    ) -> Option<Graph>
        ensures test { Decides (is_some result) (Formed events sources (map members mo)) }
        ensures parts { elim result [ Some g ↦ (g.events ≡ events) × (g.sources ≡ sources) × (g.mo ≡ mo) | None ↦ Unit {0} ] }
    {
        let parts = Parts {
            events: &events,
            sources: &sources,
            mo: &mo,
        };
        // With `then` the proof did not close: in its closure nothing says that the parts fit.
        if parts.fit() {
            Some(Graph {
                events,
                sources,
                mo,
            })
        } else {
            None
        }
    }

    /// Its parts, of which the questions below are asked as they were before it was a graph.
    fn parts(&self) -> Parts<'_>
        ensures events { result.events.now ≡ self.now.events }
        ensures sources { result.sources.now ≡ self.now.sources }
        ensures mo { result.mo.now ≡ self.now.mo }
    {
        Parts {
            events: &self.events,
            sources: &self.sources,
            mo: &self.mo,
        }
    }

    /// The event of a number: of a statement, or an initial write.
    pub fn event(&self, e: usize) -> Option<Event>
        ensures { result ≡ event_at self.now.events e }
    {
        self.parts().event(e)
    }

    /// What the event of a number reads.
    pub fn read(&self, e: usize) -> Option<Access>
        ensures { result ≡ read_at self.now.events e }
    {
        self.parts().read(e)
    }

    /// What the event of a number writes.
    pub fn written(&self, e: usize) -> Option<Access>
        ensures { result ≡ written_at self.now.events e }
    {
        self.parts().written(e)
    }

    /// The source of a reading event.
    pub fn source(&self, e: usize) -> Option<u8>
        ensures { result ≡ slice_index_or self.now.sources e None }
    {
        self.parts().source(e)
    }

    /// The order of the writes of a location.
    pub fn order(&self, location: Location) -> Order
        ensures { members result ≡ slice_index_or (map members self.now.mo) (location_index location) [] }
    {
        *self.parts().order(location)
    }

    /// The place of an event in the order of a location, given by its number; the length of that order where it does not stand in it. Not an
    /// `Option`, since mo compares any two places; there are no orders above 3.
    pub fn position(&self, l: usize, e: usize) -> usize
        ensures { result ≡ position ((view self.now).mo l) e }
    {
        self.mo.get(l).map_or(0, |order| position(order, e))
    }
}
