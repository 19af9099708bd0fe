//! What a mapping adds to one statement, and to all of a thread.
use programs::threads::MAX_STATEMENTS;

/// If a fence stands before the statement, if one stands after it, and if the statement is a store that is locked.
#[derive(Clone, Copy, PartialEq, Eq)]
pub struct Placement {
    pub before: bool,
    pub after: bool,
    pub locked: bool,
}

impl Placement {
    /// Nothing is added.
    pub const NONE: Placement = Placement {
        before: false,
        after: false,
        locked: false,
    };
}

/// What is placed at each place of a thread; past its end nothing is.
pub type Plan = [Placement; MAX_STATEMENTS];
