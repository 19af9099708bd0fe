//! What the events of a graph do, as the relations of the memory model see it.
ghost use Rattle.std.specs.Prelude.{◌≡◌};
ghost use Rattle.graph.specs.Execution.{view};

use super::graph::*;
use super::parts::*;
use events::event::*;
use lang::syntax::Mode;

impl Graph {
    /// If there is an event of a number.
    pub fn is_present(&self, e: usize) -> bool
        ensures { result ≡ (view self.now).present e }
    {
        self.event(e).is_some()
    }

    /// If an event reads.
    pub fn is_read(&self, e: usize) -> bool
        ensures { result ≡ (view self.now).reads e }
    {
        self.read(e).is_some()
    }

    /// If an event writes.
    pub fn is_write(&self, e: usize) -> bool
        ensures { result ≡ (view self.now).writes e }
    {
        self.written(e).is_some()
    }

    /// If an event is a fence.
    pub fn is_fence(&self, e: usize) -> bool
        ensures { result ≡ (view self.now).fence e }
    {
        self.event(e).is_some_and(Event::is_fence)
    }

    /// How strongly an event orders others; relaxed where there is none, since nothing asks it but of an event.
    pub fn mode(&self, e: usize) -> Mode
        ensures { result ≡ (view self.now).mode e }
    {
        self.event(e).map_or(Mode::Relaxed, Event::mode)
    }

    /// The number of an event's location; 0 where it has none, which no relation looks at.
    pub fn location(&self, e: usize) -> usize
        ensures { result ≡ (view self.now).location e }
    {
        self.event(e).map_or(0, Event::location)
    }
}
