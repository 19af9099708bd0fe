//! What a load takes.
ghost use Rattle.std.specs.Prelude.{◌≡◌};
ghost use Rattle.programs.specs.Entries.{entries};
ghost use Rattle.memory.specs.Loads.{taken};

use super::memory::*;
use super::moves::*;
use buffers::buffer::*;
use buffers::moves::newest;
use lang::syntax::Location;

/// What a load of a location takes: the newest store to it in the thread's own buffer, if one waits there, else memory.
pub fn take(buffer: &Buffer, memory: &Memory, location: Location) -> Reading
    ensures { result ≡ taken (entries buffer.now) memory.now location }
{
    match newest(buffer, location) {
        Some(pending) => Reading {
            value: pending.value,
            source: pending.event,
        },
        None => memory.read(location),
    }
}
