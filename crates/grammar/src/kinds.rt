//! What a statement's first word can say.

/// Which statement it is.
#[derive(Clone, Copy, PartialEq, Eq)]
pub enum Kind {
    Load,
    Store,
    Exchange,
    Add,
    Fence,
}
