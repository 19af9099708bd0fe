//! What single words say.
ghost use Rattle.std.specs.Prelude.{◌≡◌, if◌then◌else◌, Some, None, Result, nat_le};
ghost use Rattle.std.specs.Char.{is_ascii_digit};
ghost use Rattle.std.specs.List.{list_all};
ghost use Rattle.faults.specs.declared.Fault.{Fault};
ghost use Rattle.faults.specs.declared.Fault.TheVariants.{WrongWord};
ghost use Rattle.grammar.specs.Pieces.{Piece, piece};
ghost use Rattle.grammar.specs.Table.{number};
ghost use Rattle.grammar.specs.Answer.{register_of, mode_of, moded, read_kind, read_register, read_location, read_operand, read_mode};

use super::text::*;
use faults::Fault;
use grammar::kinds::*;
use lang::syntax::*;

/// What one word can be read as.
pub(crate) trait FromWord: Sized {
    /// What the word says where it stands, or the fault at it.
    ghost reads: { Piece → Result Self Fault };

    fn from_word(word: Word) -> Result<Self, Fault>
        ensures { result ≡ reads (piece word.entry.offset word.entry.bytes.now) };
}

impl<'a> Word<'a> {
    /// The fault of a word that is none of what can stand here.
    pub(crate) fn wrong(&self) -> Fault
        ensures { result ≡ WrongWord self.now.offset }
    {
        Fault::WrongWord {
            offset: self.offset,
        }
    }
}

impl FromWord for Kind {
    ghost reads = { read_kind };

    fn from_word(word: Word) -> Result<Kind, Fault> {
        match word.bytes {
            b"ld" => Ok(Kind::Load),
            b"st" => Ok(Kind::Store),
            b"xchg" => Ok(Kind::Exchange),
            b"add" => Ok(Kind::Add),
            b"fence" => Ok(Kind::Fence),
            _ => Err(word.wrong()),
        }
    }
}

impl FromWord for Location {
    ghost reads = { read_location };

    fn from_word(word: Word) -> Result<Location, Fault> {
        let [letter] = word.bytes else {
            return Err(word.wrong());
        };
        match *letter as char {
            'x' => Ok(Location::X),
            'y' => Ok(Location::Y),
            'z' => Ok(Location::Z),
            'w' => Ok(Location::W),
            _ => Err(word.wrong()),
        }
    }
}

/// The register that a word names.
fn register_named(word: &[u8]) -> Option<Register>
    ensures { result ≡ register_of word.now }
{
    match word {
        b"r0" => Some(Register::R0),
        b"r1" => Some(Register::R1),
        b"r2" => Some(Register::R2),
        b"r3" => Some(Register::R3),
        _ => None,
    }
}

impl FromWord for Register {
    ghost reads = { read_register };

    fn from_word(word: Word) -> Result<Register, Fault> {
        register_named(word.bytes).ok_or(word.wrong())
    }
}

/// If a word is of digits alone.
fn all_digits(word: &[u8]) -> bool
    ensures { result ≡ list_all is_ascii_digit word.now }
{
    word.iter().all(u8::is_ascii_digit)
}

/// The number that digits write, if it is at most 255.
fn value(digits: &[u8]) -> Option<u8>
    ensures { result ≡ (if nat_le (number digits.now) 255 then Some (number digits.now) else None) }
{
    digits.iter().try_fold(0u8, |value, digit| {
        value
            .checked_mul(10)?
            .checked_add(digit.saturating_sub(b'0'))
    })
}

/// A register, or a number of at most 255.
impl FromWord for Operand {
    ghost reads = { read_operand };

    fn from_word(word: Word) -> Result<Operand, Fault> {
        if let Some(register) = register_named(word.bytes) {
            return Ok(Operand::Held(register));
        }
        if !all_digits(word.bytes) {
            return Err(word.wrong());
        }
        value(word.bytes)
            .map(Operand::Value)
            .ok_or(Fault::LargeNumber {
                offset: word.offset,
            })
    }
}

/// The mode that a word names.
fn mode_named(word: &[u8]) -> Option<Mode>
    ensures { result ≡ mode_of word.now }
{
    match word {
        b"rlx" => Some(Mode::Relaxed),
        b"acq" => Some(Mode::Acquire),
        b"rel" => Some(Mode::Release),
        b"ar" => Some(Mode::AcquireRelease),
        b"sc" => Some(Mode::SeqCst),
        _ => None,
    }
}

/// The mode, if it is one that the statement takes. One match tells an accepted mode, a wrong word and a wrong mode apart.
fn accepted(kind: Kind, mode: Option<Mode>, offset: usize) -> Result<Mode, Fault>
    ensures { result ≡ moded kind mode offset }
{
    match (kind, mode) {
        (_, None) => Err(Fault::WrongWord { offset }),
        (Kind::Load, Some(m)) if m == Mode::Release || m == Mode::AcquireRelease => Err(
            Fault::WrongMode { offset },
        ),
        (Kind::Store, Some(m)) if m == Mode::Acquire || m == Mode::AcquireRelease => Err(
            Fault::WrongMode { offset },
        ),
        (Kind::Fence, Some(m)) if m == Mode::Relaxed => Err(Fault::WrongMode { offset }),
        (_, Some(m)) => Ok(m),
    }
}

/// The mode that a word names, if the statement takes it. No `FromWord`, since it depends on the statement.
pub(crate) fn mode(kind: Kind, word: Word) -> Result<Mode, Fault>
    ensures { result ≡ read_mode kind (piece word.entry.offset word.entry.bytes.now) }
{
    accepted(kind, mode_named(word.bytes), word.offset)
}
