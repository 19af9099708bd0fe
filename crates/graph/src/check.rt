//! If sources and orders fit the events.
ghost use Rattle.std.specs.Prelude.{◌≡◌, ℕ, ◌+◌, ◌<◌, true, [], map, length, None, Decides, slice_index, slice_index_or};
ghost use Rattle.lang.specs.Numbering.{location_index};
ghost use Rattle.events.specs.Events.{event_at, read_at, written_at};
ghost use Rattle.orders.specs.Orders.{members, position};
ghost use Rattle.graph.specs.Formed.{agree, source_fits, writes_to, StandsFirst, OrderFits, Formed};
ghost use Rattle.graph.specs.Orders.{order_of};

use events::event::*;
use lang::syntax::*;
use orders::order::*;

/// The parts that are to be a graph.
#[derive(Clone, Copy)]
pub(crate) struct Parts<'a> {
    pub(crate) events: &'a [Option<Event>],
    pub(crate) sources: &'a [Option<u8>],
    pub(crate) mo: &'a [Order; LOCATIONS],
    ghost locations: { length mo.now ≡ 4 },
}

/// If what is written is what is read: the same value at the same location.
fn agree(written: Option<Access>, read: Option<Access>) -> bool
    ensures { result ≡ agree written read }
{
    written.is_some() && written == read
}

impl<'a> Parts<'a> {
    /// The event of a number: of a statement, or an initial write.
    pub(crate) fn event(&self, e: usize) -> Option<Event>
        ensures { result ≡ event_at self.now.events.now e }
    {
        if e < STATEMENTS {
            return self.events.get(e).copied().flatten();
        }
        Location::ALL
            .get(e - STATEMENTS)
            .map(|location| Event::initial_write(*location))
    }

    /// What the event of a number reads.
    pub(crate) fn read(&self, e: usize) -> Option<Access>
        ensures { result ≡ read_at self.now.events.now e }
    {
        self.event(e)?.read()
    }

    /// What the event of a number writes.
    pub(crate) fn written(&self, e: usize) -> Option<Access>
        ensures { result ≡ written_at self.now.events.now e }
    {
        self.event(e)?.written()
    }

    /// The source of a reading event.
    pub(crate) fn source(&self, e: usize) -> Option<u8>
        ensures { result ≡ slice_index_or self.now.sources.now e None }
    {
        self.sources.get(e).copied().flatten()
    }

    /// If an event's source fits it.
    fn source_fits(&self, r: usize) -> bool
        ensures { result ≡ source_fits self.now.events.now self.now.sources.now r }
    {
        match self.source(r).map(usize::from) {
            Some(s) => s != r && agree(self.written(s), self.read(r)),
            None => self.read(r).is_none(),
        }
    }

    /// If the sources of all events fit them.
    fn sources_fit(&self) -> bool
        ensures { Decides result ((r : ℕ) → r < 32 → source_fits self.now.events.now self.now.sources.now r ≡ true) }
    {
        (0..STATEMENTS).all(|r| self.source_fits(r))
    }

    /// If an event writes to a location.
    fn writes_to(&self, location: Location, w: usize) -> bool
        ensures { result ≡ writes_to self.now.events.now (location_index location) w }
    {
        self.written(w)
            .is_some_and(|access| access.location.index() == location.index())
    }

    /// The order of the writes of a location.
    pub(crate) fn order(&self, location: Location) -> &'a Order
        ensures { members result.now ≡ order_of self.now.mo.now location }
    {
        &self.mo[location.index()]
    }

    /// If the order of a location begins with its initial write.
    fn begins(&self, location: Location) -> bool
        ensures { Decides result (slice_index (order_of self.now.mo.now location) 0 ≡ 32 + location_index location) }
    {
        self.order(location).get(0) == Some((STATEMENTS + location.index()) as u8)
    }

    /// If the order of a location holds an event, where that writes to the location.
    fn holds(&self, location: Location, w: usize) -> bool
        ensures { Decides result (writes_to self.now.events.now (location_index location) w ≡ true → position (order_of self.now.mo.now location) w < length (order_of self.now.mo.now location)) }
    {
        let order = self.order(location);
        !self.writes_to(location, w) || position(order, w) < order.len()
    }

    /// If an event is a write of a location that stands in its order at a place, and at none before.
    fn stands(&self, location: Location, at: usize, w: usize) -> bool
        ensures { Decides result (StandsFirst self.now.events.now (order_of self.now.mo.now location) (location_index location) at w) }
    {
        self.writes_to(location, w) && position(self.order(location), w) == at
    }

    /// If the order of a location holds only writes of the location, each once.
    fn holds_only(&self, location: Location) -> bool
        ensures { Decides result ((i : ℕ) → i < length (order_of self.now.mo.now location) → StandsFirst self.now.events.now (order_of self.now.mo.now location) (location_index location) i (slice_index (order_of self.now.mo.now location) i)) }
    {
        let order = self.order(location);
        order.as_slice().iter().enumerate().all(|(at, write)| self.stands(
            location,
            at,
            usize::from(*write),
        ))
    }

    /// If the order of a location holds each write of the location.
    fn holds_each(&self, location: Location) -> bool
        ensures { Decides result ((w : ℕ) → writes_to self.now.events.now (location_index location) w ≡ true → position (order_of self.now.mo.now location) w < length (order_of self.now.mo.now location)) }
    {
        (0..EVENTS).all(|w| self.holds(location, w))
    }

    /// If the order of a location is one of all its writes, the initial one first.
    fn order_fits(&self, location: Location) -> bool
        ensures { Decides result (OrderFits self.now.events.now (order_of self.now.mo.now location) (location_index location)) }
    {
        self.begins(location) && self.holds_only(location) && self.holds_each(location)
    }

    /// If the orders of all locations fit the events.
    fn orders_fit(&self) -> bool
        ensures { Decides result ((l : ℕ) → l < 4 → OrderFits self.now.events.now (slice_index_or (map members self.now.mo.now) l []) l) }
    {
        Location::ALL
            .iter()
            .all(|location| self.order_fits(*location))
    }

    /// If these are the parts of a graph.
    pub(crate) fn fit(&self) -> bool
        ensures { Decides result (Formed self.now.events.now self.now.sources.now (map members self.now.mo.now)) }
    {
        self.sources_fit() && self.orders_fit()
    }
}
