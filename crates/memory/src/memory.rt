//! Memory, and what is read from it.
ghost use Rattle.std.specs.Prelude.{◌≡◌, length};

use events::event::LOCATIONS;
use orders::order::MAX_WRITES;
use programs::bounded::Bounded;

/// The writes that reached a location, in order: the initial one first.
pub type Writes = Bounded<u8, 1, MAX_WRITES>;

/// What each location holds, and for each the writes that reached it.
#[derive(Clone, Copy)]
pub struct Memory {
    pub(crate) values: [u8; LOCATIONS],
    pub(crate) mo: [Writes; LOCATIONS],
    ghost rooms: { length values ≡ 4 },
    ghost locations: { length mo ≡ 4 },
}

/// What a read of memory gives: the value, and the event that wrote it.
#[derive(Clone, Copy, PartialEq, Eq)]
pub struct Reading {
    pub value: u8,
    pub source: u8,
}
