//! Lists of limited length, made and read.
ghost use Rattle.std.specs.Prelude.{◌≡◌, ◌-◌, ◌<◌, ◌≤◌, false, [], ◌∷◌, ◌++◌, length, is_ok, if◌then◌else◌, Some, None, nat_le, nat_lt, codes};
ghost use Rattle.std.specs.List.{slice_get};
ghost use Rattle.std.specs.Option.{option_map};
ghost use Rattle.programs.specs.Entries.{entries};

use super::bounded::*;
use std::error::Error;
use std::fmt;

/// There is no room for one more.
#[derive(Clone, Copy, Debug, PartialEq, Eq)]
pub struct Full;

impl fmt::Display for Full {
    ghost output = { λ _. Some (codes "there is no room for one more") };

    fn fmt<W: fmt::Write>(&self, f: &mut fmt::Formatter<W>) -> fmt::Result {
        f.write_str("there is no room for one more")
    }
}

impl Error for Full {}

impl<T: Copy, const MOST: usize> Bounded<T, 0, MOST> {
    /// No entries; the blank stands in the unused cells.
    pub fn empty(blank: T) -> Self
        ensures { entries result ≡ [] }
    {
        Bounded {
            cells: [blank; MOST],
            len: 0,
        }
    }

    /// The entries given, in that order; none where they are too many.
    pub fn of(blank: T, given: &[T]) -> Option<Self>
        ensures { option_map entries result ≡ (if nat_le (length given.now) MOST then Some given.now else None) }
    {
        let mut list = Bounded::empty(blank);
        for entry in given {
            list.push(*entry).ok()?;
        }
        Some(list)
    }
}

impl<T: Copy, const MOST: usize> Bounded<T, 1, MOST> {
    /// One entry.
    pub fn new(first: T) -> Self
        requires { 1 ≤ MOST }
        ensures { entries result ≡ first ∷ [] }
    {
        Bounded {
            cells: [first; MOST],
            len: 1,
        }
    }
}

impl<T: Copy, const LEAST: usize, const MOST: usize> Bounded<T, LEAST, MOST> {
    /// Adds an entry at the end; a full list takes no more and stays as it is.
    pub fn push(&mut self, entry: T) -> Result<(), Full>
        ensures test { is_ok result ≡ nat_lt (length (entries self.old)) MOST }
        ensures after { entries self.new ≡ (if is_ok result then entries self.old ++ (entry ∷ []) else entries self.old) }
        ensures same { is_ok result ≡ false → self.new ≡ self.old }
    {
        if self.len == MOST {
            return Err(Full);
        }
        self.cells[self.len] = entry;
        self.len += 1;
        Ok(())
    }

    /// The entries, in order.
    pub fn as_slice(&self) -> &[T]
        ensures { result.now ≡ entries self.now }
    {
        &self.cells[..self.len]
    }

    /// The number of entries.
    pub fn len(&self) -> usize
        ensures value { result ≡ length (entries self.now) }
        ensures low_bound { LEAST ≤ result }
        ensures high_bound { result ≤ MOST }
    {
        self.as_slice().len()
    }

    /// The entry at a place, if there is one.
    pub fn get(&self, place: usize) -> Option<T>
        ensures { result ≡ slice_get (entries self.now) place }
    {
        self.as_slice().get(place).copied()
    }

    /// The last entry, if there is one.
    pub fn last(&self) -> Option<T>
        ensures { result ≡ slice_get (entries self.now) (length (entries self.now) - 1) }
    {
        self.as_slice().last().copied()
    }
}
