//! The sixteen ways in which calls refuse, each with its number, pass and place.
#![tactic(auto)]

ghost use Rattle.std.specs.Prelude.{◌≡◌, ◌++◌, Some};
ghost use Rattle.faults.specs.Refusals.{refusal, refusal_line, side_pass, search_place};

use std::error::Error;
use std::fmt;

/// Which of the two ways to run a program refuses, by the pass of its calls.
#[derive(Clone, Copy, Debug, PartialEq, Eq)]
pub enum Side {
    Machine = 4,
    Draft = 5,
}

/// Which list a search was for, by the place that its refusals have.
#[derive(Clone, Copy, Debug, PartialEq, Eq)]
pub enum Search {
    Shown = 1,
    Allowed = 2,
}

/// Why a call refused. Offsets count the bytes of the text from 0.
#[derive(Clone, Copy, Debug, PartialEq, Eq)]
pub enum Fault {
    /// The text is empty or longer than 2,048 bytes.
    TextLength,
    /// A byte other than a to z, 0 to 9, space, `;` and LF.
    ForeignByte { offset: usize },
    /// A byte follows the fourth LF.
    FifthLine { offset: usize },
    /// An eighth `;` in a line; the offset is just after it.
    NinthStatement { offset: usize },
    /// A word is missing, or not allowed where it stands.
    WrongWord { offset: usize },
    /// A mode that the statement does not take.
    WrongMode { offset: usize },
    /// A number over 255.
    LargeNumber { offset: usize },
    /// The program has no thread of this number.
    NoThread { side: Side, thread: usize },
    /// The thread has nothing left to issue or to add.
    NothingLeft { side: Side, thread: usize },
    /// A locked instruction or `mfence` while stores are buffered.
    StoresPending { thread: usize },
    /// A drain of an empty buffer.
    NoStorePending { thread: usize },
    /// An event was added at a write that is not there.
    NoWrite { thread: usize },
    /// Asked for an end before it was reached; the lowest unfinished thread.
    Unfinished { side: Side, thread: usize },
    /// More places are reachable than the table has.
    TableFull { search: Search },
    /// There are more outcomes than the list has entries.
    ListFull { search: Search },
    /// The report's buffer is too short; the lines written so far.
    ReportFull { lines: usize },
}

impl Side {
    /// The pass whose calls this side refuses.
    fn pass(self) -> u8
        ensures { result ≡ side_pass self }
    {
        self as u8
    }
}

impl Search {
    /// The place that stands for this search.
    fn place(self) -> usize
        ensures { result ≡ search_place self }
    {
        self as usize
    }
}

// Matches and no discriminants: a fault carries where it refuses, and variants with fields have no numbers of their own.
impl Fault {
    /// The number of the refusal, 1 to 16.
    pub fn number(self) -> u8
        ensures { result ≡ (refusal self).number }
    {
        match self {
            Fault::TextLength => 1,
            Fault::ForeignByte { .. } => 2,
            Fault::FifthLine { .. } => 3,
            Fault::NinthStatement { .. } => 4,
            Fault::WrongWord { .. } => 5,
            Fault::WrongMode { .. } => 6,
            Fault::LargeNumber { .. } => 7,
            Fault::NoThread { .. } => 8,
            Fault::NothingLeft { .. } => 9,
            Fault::StoresPending { .. } => 10,
            Fault::NoStorePending { .. } => 11,
            Fault::NoWrite { .. } => 12,
            Fault::Unfinished { .. } => 13,
            Fault::TableFull { .. } => 14,
            Fault::ListFull { .. } => 15,
            Fault::ReportFull { .. } => 16,
        }
    }

    /// The pass that refuses, 1 to 7.
    pub fn pass(self) -> u8
        ensures { result ≡ (refusal self).pass }
    {
        match self {
            Fault::TextLength | Fault::ForeignByte { .. } => 1,
            Fault::FifthLine { .. } | Fault::NinthStatement { .. } => 2,
            Fault::WrongWord { .. } | Fault::WrongMode { .. } | Fault::LargeNumber { .. } => 2,
            Fault::NoThread { side, .. }
            | Fault::NothingLeft { side, .. }
            | Fault::Unfinished { side, .. } => side.pass(),
            Fault::StoresPending { .. } | Fault::NoStorePending { .. } => 4,
            Fault::NoWrite { .. } => 5,
            Fault::TableFull { .. } | Fault::ListFull { .. } => 6,
            Fault::ReportFull { .. } => 7,
        }
    }

    /// Where it refuses: an offset, a thread, a search or a count of lines.
    pub fn place(self) -> usize
        ensures { result ≡ (refusal self).place }
    {
        match self {
            Fault::TextLength => 0,
            Fault::ForeignByte { offset }
            | Fault::FifthLine { offset }
            | Fault::NinthStatement { offset }
            | Fault::WrongWord { offset }
            | Fault::WrongMode { offset }
            | Fault::LargeNumber { offset } => offset,
            Fault::NoThread { thread, .. }
            | Fault::NothingLeft { thread, .. }
            | Fault::StoresPending { thread }
            | Fault::NoStorePending { thread }
            | Fault::NoWrite { thread }
            | Fault::Unfinished { thread, .. } => thread,
            Fault::TableFull { search } | Fault::ListFull { search } => search.place(),
            Fault::ReportFull { lines } => lines,
        }
    }
}

/// `refused N pass P place Q`.
impl fmt::Display for Fault {
    ghost output = { λ f. Some (refusal_line f) };

    fn fmt<W: fmt::Write>(&self, f: &mut fmt::Formatter<W>) -> fmt::Result {
        let number = self.number();
        let pass = self.pass();
        let place = self.place();
        write!(f, "refused {number} pass {pass} place {place}")
    }
}

impl Error for Fault {}
