//! Buffers, looked up and drained. Stores join them by `push`.
ghost use Rattle.std.specs.Prelude.{◌≡◌, [], ◌∷◌, MatchOption};
ghost use Rattle.programs.specs.Entries.{entries};
ghost use Rattle.buffers.specs.Buffers.{newest};

use super::buffer::*;
use lang::syntax::Location;
use programs::parts::*;

/// The newest store to a location, if one waits; where none does, a load reads memory.
pub fn newest(buffer: &Buffer, location: Location) -> Option<Pending>
    ensures { result ≡ newest (entries buffer.now) location }
{
    buffer
        .as_slice()
        .iter()
        .rev()
        .find(|pending| pending.location.index() == location.index())
        .copied()
}

/// Takes the oldest store out, if there is one.
pub fn take_oldest(buffer: &mut Buffer) -> Option<Pending>
    ensures { MatchOption result ((entries buffer.old ≡ []) × (buffer.new ≡ buffer.old)) (λ p. entries buffer.old ≡ p ∷ entries buffer.new) }
{
    let (oldest, rest) = buffer.as_slice().split_first()?;
    let oldest = *oldest;
    let rest = Buffer::of(Pending::BLANK, rest)?;
    *buffer = rest;
    Some(oldest)
}
