//! Lists of limited length that need no heap.
ghost use Rattle.std.specs.Prelude.{◌≡◌, ◌≤◌, length, ⊤};

use std::alloc::AllocError;

/// At least `LEAST` and at most `MOST` entries, which stand at the front; the cells from `len` on are unused. The library's `ArrayVec`
/// does not serve: it cannot be copied, and needs a default for the unused cells. Nor has it a model as a list: a copy would have to get the
/// unused cells back from that.
pub struct Bounded<T, const LEAST: usize, const MOST: usize> {
    pub(crate) cells: [T; MOST],
    pub(crate) len: usize,
    ghost enough: { LEAST ≤ len },
    ghost few: { len ≤ MOST },
    ghost room: { length cells ≡ MOST },
}

// Written out, since no derive copies a generic struct that has a ghost field.
impl<T: Copy, const LEAST: usize, const MOST: usize> Clone for Bounded<T, LEAST, MOST> {
    ghost is_clone = { λ list copy. copy ≡ list };

    ghost is_infallible = { λ _. ⊤ };

    fn clone(&self) -> Result<Self, AllocError> {
        Ok(*self)
    }
}

impl<T: Copy, const LEAST: usize, const MOST: usize> Copy for Bounded<T, LEAST, MOST> {}
