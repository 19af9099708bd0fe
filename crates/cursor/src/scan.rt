//! How the cursor goes over spaces and words.
ghost use Rattle.std.specs.Prelude.{◌≡◌, ◌+◌, ◌<◌, ◌≤◌, [], ◌∷◌, length, drop, Ok, Err, MatchBool, ◌≢◌, nat_le, slice_index, ◌==◌};
ghost use Rattle.std.specs.List.{before_first, prefix_len};
ghost use Rattle.faults.specs.declared.Fault.TheVariants.{WrongWord};
ghost use Rattle.grammar.specs.Pieces.{piece, SPACE};
ghost use Rattle.cursor.specs.Sight.{ends_word, words_left, statement_end, Advances};

use super::text::*;
use faults::Fault;

/// If a byte ends a word: a space, or a separator.
fn ends_word(byte: u8) -> bool
    ensures { result ≡ ends_word byte }
{
    matches!(byte, b' ' | b';' | b'\n')
}

/// How many spaces stand here.
fn spaces(rest: &[u8]) -> usize
    ensures value { result ≡ prefix_len (λ b. b == SPACE) rest.now }
    ensures within { result ≤ length rest.now }
{
    rest.iter().take_while(|byte| **byte == b' ').count()
}

/// How many bytes a word has that begins here.
fn word_length(rest: &[u8]) -> usize
    ensures { result ≡ length (before_first ends_word rest.now) }
{
    rest.iter().take_while(|byte| !ends_word(**byte)).count()
}

impl<'a> Cursor<'a> {
    /// A cursor at the start of a text.
    pub fn new(text: &'a [u8]) -> Cursor<'a>
        ensures { (result.at ≡ 0) × (result.text ≡ text.entry) }
    {
        Cursor { text, at: 0 }
    }

    /// What is still to be read.
    fn rest(&self) -> &'a [u8]
        ensures { result.now ≡ drop self.now.at self.now.text.now }
    {
        &self.text[self.at..]
    }

    /// Passes over all spaces that stand here: the same words are left.
    fn skip_spaces(&mut self)
        ensures forward { Advances self.old self.new }
        ensures left { words_left self.old.text.now self.new.at ≡ words_left self.old.text.now self.old.at }
        ensures stop { statement_end self.old.text.now self.new.at ≡ statement_end self.old.text.now self.old.at }
        ensures after { prefix_len (λ b. b == SPACE) (drop self.new.at self.old.text.now) ≡ 0 }
    {
        self.at += spaces(self.rest());
    }

    /// The next word of the statement; where none is left, the fault at the statement's end.
    pub fn word(&mut self) -> Result<Word<'a>, Fault>
        ensures forward { Advances self.old self.new }
        ensures cases { elim result [ Ok w ↦ (words_left self.old.text.now self.old.at ≡ piece w.offset w.bytes.now ∷ words_left self.old.text.now self.new.at) × (statement_end self.old.text.now self.new.at ≡ statement_end self.old.text.now self.old.at) | Err f ↦ (words_left self.old.text.now self.old.at ≡ []) × (f ≡ WrongWord self.new.at) × (self.new.at ≡ statement_end self.old.text.now self.old.at) ] }
    {
        self.skip_spaces();
        let offset = self.at;
        let rest = self.rest();
        let length = word_length(rest);
        if length == 0 {
            return Err(Fault::WrongWord { offset });
        }
        self.at += length;
        Ok(Word {
            offset,
            bytes: &rest[..length],
        })
    }

    /// Passes over a byte, if it stands here.
    pub fn skip(&mut self, byte: u8) -> bool
        ensures same { self.new.text ≡ self.old.text }
        ensures cases { MatchBool result ((self.old.at < length self.old.text.now) × (slice_index self.old.text.now self.old.at ≡ byte) × (self.new.at ≡ self.old.at + 1)) ((self.new.at ≡ self.old.at) × (self.old.at < length self.old.text.now → slice_index self.old.text.now self.old.at ≢ byte)) }
    {
        let found = self.rest().first() == Some(&byte);
        if found {
            self.at += 1;
        }
        found
    }

    /// The offset of the cursor in its text.
    pub fn offset(&self) -> usize
        ensures { result ≡ self.now.at }
    {
        self.at
    }

    /// If the whole text has been read.
    pub fn is_at_end(&self) -> bool
        ensures { result ≡ nat_le (length self.now.text.now) self.now.at }
    {
        self.at >= self.text.len()
    }
}
