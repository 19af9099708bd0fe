//! How lines and whole texts are read, part after part.
ghost use Rattle.std.specs.Prelude.{◌≡◌, ℕ, ◌<◌, ◌≤◌, true, List, [], ◌∷◌, map, length, drop, Result, is_ok, MatchBool};
ghost use Rattle.std.specs.List.{before_first};
ghost use Rattle.lang.specs.declared.syntax.Statement.{Statement};
ghost use Rattle.programs.specs.Entries.{entries};
ghost use Rattle.programs.specs.Parts.{body};
ghost use Rattle.faults.specs.declared.Fault.{Fault};
ghost use Rattle.faults.specs.declared.Fault.TheVariants.{NinthStatement, FifthLine};
ghost use Rattle.grammar.specs.Pieces.{Piece};
ghost use Rattle.grammar.specs.Answer.{read_statement, read_thread, read_each};
ghost use Rattle.grammar.specs.Texts.{seen};
ghost use Rattle.cursor.specs.declared.text.Cursor.{Cursor};
ghost use Rattle.cursor.specs.Sight.{rest_of_statement, statement_end, ends_statement, ends_line, Advances};
ghost use Rattle.reader.specs.Ahead.{rest_of_line, line_end, statements_after, lines_after};

use cursor::text::Cursor;
use faults::Fault;
use lang::syntax::Statement;
use programs::bounded::Bounded;
use programs::threads::*;

/// What follows one another in a text: the statements of a line, the lines of the text.
pub(super) trait Part: Copy {
    /// What the grammar sees of it.
    ghost Seen: { Type 0 };

    ghost view: { Self → Seen };

    /// What a piece of the text is read as, and the fault of a piece too many.
    ghost reads: { Piece → Result Seen Fault };

    ghost over: { ℕ → Fault };

    /// The piece that begins where the cursor stands, and the pieces after it.
    ghost here: { Cursor → Piece };

    ghost rest: { Cursor → List Piece };

    /// A piece has ended here; the pieces after it, and the end of the last of them.
    ghost Ended: { Cursor → Type 0 };

    ghost after: { Cursor → List Piece };

    ghost stop: { Cursor → ℕ };

    /// The part that begins here.
    fn read(cursor: &mut Cursor) -> Result<Self, Fault>
        ensures forward { Advances cursor.old cursor.new }
        ensures value { seen view result ≡ reads (here cursor.old) }
        ensures ended { is_ok result ≡ true → Ended cursor.new × (after cursor.new ≡ rest cursor.old) × (stop cursor.new ≡ stop cursor.old) };

    /// Passes over what ends a part, if it stands here, and says whether one more part begins.
    fn follows(cursor: &mut Cursor) -> bool
        requires { Ended cursor.old }
        ensures forward { Advances cursor.old cursor.new }
        ensures cases { MatchBool result ((cursor.old.at < cursor.new.at) × (after cursor.old ≡ here cursor.new ∷ rest cursor.new) × ((here cursor.new).offset ≡ cursor.new.at) × (stop cursor.new ≡ stop cursor.old)) ((after cursor.old ≡ []) × (cursor.new.at ≡ stop cursor.old)) };

    /// The fault of a part too many, which begins at an offset.
    fn one_too_many(offset: usize) -> Fault
        ensures { result ≡ over offset };
}

impl Part for Statement {
    ghost Seen = { Statement };

    ghost view = { λ s. s };

    ghost reads = { read_statement };

    ghost over = { NinthStatement };

    ghost here = { λ c. rest_of_statement c.text.now c.at };

    ghost rest = { λ c. statements_after c.text.now (statement_end c.text.now c.at) };

    ghost Ended = { λ c. before_first ends_statement (drop c.at c.text.now) ≡ [] };

    ghost after = { λ c. statements_after c.text.now c.at };

    ghost stop = { λ c. line_end c.text.now c.at };

    fn read(cursor: &mut Cursor) -> Result<Statement, Fault> {
        cursor.statement()
    }

    fn follows(cursor: &mut Cursor) -> bool {
        cursor.skip(b';')
    }

    fn one_too_many(offset: usize) -> Fault {
        Fault::NinthStatement { offset }
    }
}

impl Part for Thread {
    ghost Seen = { List Statement };

    ghost view = { body };

    ghost reads = { read_thread };

    ghost over = { FifthLine };

    ghost here = { λ c. rest_of_line c.text.now c.at };

    ghost rest = { λ c. lines_after c.text.now (line_end c.text.now c.at) };

    ghost Ended = { λ c. before_first ends_line (drop c.at c.text.now) ≡ [] };

    ghost after = { λ c. lines_after c.text.now c.at };

    ghost stop = { λ c. length c.text.now };

    fn read(cursor: &mut Cursor) -> Result<Thread, Fault> {
        parts(cursor)
    }

    fn follows(cursor: &mut Cursor) -> bool {
        cursor.skip(b'\n') && !cursor.is_at_end()
    }

    fn one_too_many(offset: usize) -> Fault {
        Fault::FifthLine { offset }
    }
}

/// The parts from the one that begins here to the last, if they are no more than may be.
pub(super) fn parts<T: Part, const MOST: usize>(
    cursor: &mut Cursor,
) -> Result<Bounded<T, 1, MOST>, Fault>
    requires { 1 ≤ MOST }
    ensures forward { Advances cursor.old cursor.new }
    ensures value { seen (λ list. map T.view (entries list)) result ≡ read_each MOST T.over T.reads (T.here cursor.old ∷ T.rest cursor.old) }
    ensures after { is_ok result ≡ true → cursor.new.at ≡ T.stop cursor.old }
{
    let mut parts = Bounded::new(T::read(cursor)?);
    while T::follows(cursor) {
        let start = cursor.offset();
        if parts.len() == MOST {
            return Err(T::one_too_many(start));
        }
        parts.push(T::read(cursor)?).unwrap();
    }
    Ok(parts)
}
