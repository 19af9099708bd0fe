//! What is buffered.
use lang::syntax::Location;
use programs::bounded::Bounded;
use programs::threads::MAX_STATEMENTS;

/// A store that waits: where it goes, the value, and the number of its event.
#[derive(Clone, Copy, PartialEq, Eq)]
pub struct Pending {
    pub location: Location,
    pub value: u8,
    pub event: u8,
}

impl Pending {
    /// What stands in the unused cells of a buffer.
    pub const BLANK: Pending = Pending {
        location: Location::X,
        value: 0,
        event: 0,
    };
}

/// At most one store for each statement of the thread, the oldest first.
pub type Buffer = Bounded<Pending, 0, MAX_STATEMENTS>;
