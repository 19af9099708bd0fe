//! A cursor over the caller's text, and the words that it hands out.
ghost use Rattle.std.specs.Prelude.{◌≤◌, length};

/// A place in the text; everything before it has been read. That a call only goes forward over the same text is a clause,
/// by the one word `Advances`: an invariant of the type speaks of one moment, and this of two.
#[derive(Drop)]
pub struct Cursor<'a> {
    pub(crate) text: &'a [u8],
    pub(crate) at: usize,
    ghost within: { at ≤ length text.now },
}

/// A word of the text and the offset at which it begins.
#[derive(Clone, Copy)]
pub struct Word<'a> {
    pub offset: usize,
    pub bytes: &'a [u8],
}
