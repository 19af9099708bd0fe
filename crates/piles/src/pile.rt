//! A mapping that is put together when the program runs: a published one, and layers over it in the order given.

/// A published mapping.
#[derive(Clone, Copy, PartialEq, Eq)]
pub enum Base {
    Trailing,
    Locked,
    Leading,
}

/// A layer over a mapping.
#[derive(Clone, Copy, PartialEq, Eq)]
pub enum Layer {
    Sparing,
    Exchange,
}

/// A published mapping with layers over it, the first lowest.
#[derive(Drop)]
pub struct Pile {
    pub base: Base,
    pub layers: Vec<Layer>,
}
