//! Outcomes, and their order: by the first value that differs.
ghost use Rattle.std.specs.Prelude.{◌≡◌, length};

/// The number of values of an outcome.
pub const VALUES: usize = 20;

/// The number of values before those of the locations.
pub const REGISTER_VALUES: usize = 16;

/// r0 to r3 of threads 0 to 3, absent threads as 0, then x, y, z and w.
#[derive(Clone, Copy, PartialEq, Eq, PartialOrd, Ord)]
pub struct Outcome {
    pub(crate) values: [u8; VALUES],
    ghost full: { length values ≡ 20 },
}
