//! Locations and registers by number, in the order of their names. Two methods of a line each: a trait for both would be no plainer.
ghost use Rattle.std.specs.Prelude.{◌≡◌, ◌<◌};
ghost use Rattle.lang.specs.Numbering.{location_index, register_index};

use super::syntax::*;

impl Location {
    /// x is 0, y is 1, z is 2, w is 3.
    pub fn index(self) -> usize
        ensures value { result ≡ location_index self }
        ensures bound { result < 4 }
    {
        self as usize
    }
}

impl Register {
    /// r0 is 0, r1 is 1, r2 is 2, r3 is 3.
    pub fn index(self) -> usize
        ensures value { result ≡ register_index self }
        ensures bound { result < 4 }
    {
        self as usize
    }
}
