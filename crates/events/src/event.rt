//! What a statement does in an execution.
ghost use Rattle.std.specs.Prelude.{◌≡◌};
ghost use Rattle.events.specs.Events.{initial_write, read_by, written_by, is_fence, mode_of, location_of};

use lang::syntax::*;

/// The number of events of statements: eight for each of four threads.
pub const STATEMENTS: usize = 32;

/// The number of events: after those of the statements the initial writes of x, y, z and w.
pub const EVENTS: usize = 36;

/// The number of locations.
pub const LOCATIONS: usize = 4;

/// What a statement did; an update reads and writes in one.
#[derive(Clone, Copy, PartialEq, Eq)]
pub enum Event {
    Load {
        location: Location,
        mode: Mode,
        read: u8,
    },
    Store {
        location: Location,
        mode: Mode,
        written: u8,
    },
    Update {
        location: Location,
        mode: Mode,
        read: u8,
        written: u8,
    },
    Fence {
        mode: Mode,
    },
}

/// A value at a location, read or written.
#[derive(Clone, Copy, PartialEq, Eq)]
pub struct Access {
    pub location: Location,
    pub value: u8,
}

impl Event {
    /// The initial write of a location: 0.
    pub fn initial_write(location: Location) -> Event
        ensures { result ≡ initial_write location }
    {
        Event::Store {
            location,
            mode: Mode::Relaxed,
            written: 0,
        }
    }

    /// What it reads, if it reads.
    pub fn read(self) -> Option<Access>
        ensures { result ≡ read_by self }
    {
        match self {
            Event::Load { location, read, .. } => Some(Access {
                location,
                value: read,
            }),
            Event::Store { .. } => None,
            Event::Update { location, read, .. } => Some(Access {
                location,
                value: read,
            }),
            Event::Fence { .. } => None,
        }
    }

    /// What it writes, if it writes.
    pub fn written(self) -> Option<Access>
        ensures { result ≡ written_by self }
    {
        match self {
            Event::Load { .. } => None,
            Event::Store {
                location,
                written,
                ..
            } => Some(Access {
                location,
                value: written,
            }),
            Event::Update {
                location,
                written,
                ..
            } => Some(Access {
                location,
                value: written,
            }),
            Event::Fence { .. } => None,
        }
    }

    /// If it is a fence.
    pub fn is_fence(self) -> bool
        ensures { result ≡ is_fence self }
    {
        matches!(self, Event::Fence { .. })
    }

    /// How strongly it orders others.
    pub fn mode(self) -> Mode
        ensures { result ≡ mode_of self }
    {
        match self {
            Event::Load { mode, .. } => mode,
            Event::Store { mode, .. } => mode,
            Event::Update { mode, .. } => mode,
            Event::Fence { mode } => mode,
        }
    }

    /// The number of its location; 0 for a fence, which has none: the relations look at it only of accesses, so an `Option` would be no plainer.
    pub fn location(self) -> usize
        ensures { result ≡ location_of self }
    {
        match self {
            Event::Load { location, .. } => location.index(),
            Event::Store { location, .. } => location.index(),
            Event::Update { location, .. } => location.index(),
            Event::Fence { .. } => 0,
        }
    }
}
