//! Memory, read and written.
ghost use Rattle.std.specs.Prelude.{◌≡◌, false, [], ◌∷◌, ◌++◌, length, is_ok, if◌then◌else◌, nat_lt, slice_index, slice_set};
ghost use Rattle.lang.specs.Numbering.{location_index};
ghost use Rattle.memory.specs.Memories.{initial_values, initial_orders, orders_of, writes_at, newest_write};

use super::memory::*;
use events::event::{LOCATIONS, STATEMENTS};
use lang::syntax::Location;
use programs::bounded::*;
use programs::parts::*;
use std::array;

impl Memory {
    /// Memory at the start: all 0, by the initial writes.
    pub fn new() -> Memory
        ensures values { result.values ≡ initial_values }
        ensures orders { orders_of result ≡ initial_orders }
    {
        Memory {
            values: [0; LOCATIONS],
            mo: array::from_fn(|l| Writes::new((STATEMENTS + l) as u8)),
        }
    }

    /// What a location holds, and the write that left it there.
    pub fn read(&self, location: Location) -> Reading
        ensures value { result.value ≡ slice_index self.now.values (location_index location) }
        ensures source { result.source ≡ newest_write self.now location }
    {
        let writes = &self.mo[location.index()];
        Reading {
            value: self.values[location.index()],
            source: writes.last().unwrap_or(0),
        }
    }

    /// The writes that reached a location, in order.
    pub fn writes(&self, location: Location) -> &[u8]
        ensures { result.now ≡ writes_at self.now location }
    {
        self.mo[location.index()].as_slice()
    }

    /// A write reaches a location; after 33 none more does, and nothing changes.
    pub fn write(&mut self, location: Location, value: u8, event: u8) -> Result<(), Full>
        ensures test { is_ok result ≡ nat_lt (length (writes_at self.old location)) 33 }
        ensures values { self.new.values ≡ (if is_ok result then slice_set self.old.values (location_index location) value else self.old.values) }
        ensures orders { orders_of self.new ≡ (if is_ok result then slice_set (orders_of self.old) (location_index location) (writes_at self.old location ++ (event ∷ [])) else orders_of self.old) }
    {
        let mut writes = self.mo[location.index()];
        writes.push(event)?;
        self.mo[location.index()] = writes;
        self.values[location.index()] = value;
        Ok(())
    }
}
