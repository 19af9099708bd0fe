//! From a program text to a program, or to the fault with which the text is refused.
#![tactic(auto)]

mod threads;

ghost use Rattle.std.specs.Prelude.{◌≡◌};
ghost use Rattle.programs.specs.Parts.{bodies};
ghost use Rattle.grammar.specs.Answer.{answer, foreign};
ghost use Rattle.grammar.specs.Texts.{permitted, seen, Right};

use cursor::text::Cursor;
use faults::Fault;
use programs::threads::Program;

/// The most bytes that a text has.
pub const MAX_TEXT: usize = 2048;

/// If a text may have this byte: a to z, 0 to 9, space, `;` or LF.
fn is_permitted(byte: u8) -> bool
    ensures { result ≡ permitted byte }
{
    matches!(byte, b'a'..=b'z' | b'0'..=b'9' | b' ' | b';' | b'\n')
}

/// The offset of the leftmost byte that a text may not have.
fn foreign_byte(text: &[u8]) -> Option<usize>
    ensures { result ≡ foreign text.now }
{
    text.iter().position(|byte| !is_permitted(*byte))
}

/// The program that a text spells, or the fault with which it is refused: for a wrong length or a foreign byte first, then the
/// leftmost fault of its lines, statements and words, and of those at one place the lowest-numbered.
pub fn read(text: &[u8]) -> Result<Program, Fault>
    ensures value { seen bodies result ≡ answer text.now }
    ensures right { Right text.now (seen bodies result) }
{
    if text.is_empty() || text.len() > MAX_TEXT {
        return Err(Fault::TextLength);
    }
    match foreign_byte(text) {
        Some(offset) => Err(Fault::ForeignByte { offset }),
        None => threads::parts(&mut Cursor::new(text)),
    }
}
