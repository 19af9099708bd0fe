//! How the cursor reads a statement: word by word, each where it has to stand.
ghost use Rattle.grammar.specs.Answer.{read_mode, read_operands, read_words, done};
ghost use Rattle.cursor.specs.Sight.{Takes, Finishes, Advances};

use super::text::*;
use super::words::{self, FromWord};
use faults::Fault;
use grammar::kinds::*;
use lang::syntax::*;

impl<'a> Cursor<'a> {
    /// The next word as what can stand here.
    fn take<T: FromWord>(&mut self) -> Result<T, Fault>
        ensures forward { Advances self.old self.new }
        ensures takes { Takes T.reads self.old result self.new }
    {
        T::from_word(self.word()?)
    }

    /// The next word as a mode of this statement.
    fn mode(&mut self, kind: Kind) -> Result<Mode, Fault>
        ensures forward { Advances self.old self.new }
        ensures takes { Takes (read_mode kind) self.old result self.new }
    {
        words::mode(kind, self.word()?)
    }

    /// The statement ends here; a word more is refused.
    fn finish(&mut self, statement: Statement) -> Result<Statement, Fault>
        ensures forward { Advances self.old self.new }
        ensures finishes { Finishes (λ ws _. done statement ws) self.old result self.new }
    {
        match self.word() {
            Ok(word) => Err(word.wrong()),
            Err(_) => Ok(statement),
        }
    }

    /// What follows the first word of a statement.
    fn operands(&mut self, kind: Kind) -> Result<Statement, Fault>
        ensures forward { Advances self.old self.new }
        ensures finishes { Finishes (read_operands kind) self.old result self.new }
    {
        let statement = match kind {
            Kind::Load => Statement::Load {
                register: self.take()?,
                location: self.take()?,
                mode: self.mode(kind)?,
            },
            Kind::Store => Statement::Store {
                location: self.take()?,
                operand: self.take()?,
                mode: self.mode(kind)?,
            },
            Kind::Exchange => Statement::Exchange {
                register: self.take()?,
                location: self.take()?,
                operand: self.take()?,
                mode: self.mode(kind)?,
            },
            Kind::Add => Statement::Add {
                register: self.take()?,
                location: self.take()?,
                operand: self.take()?,
                mode: self.mode(kind)?,
            },
            Kind::Fence => Statement::Fence {
                mode: self.mode(kind)?,
            },
        };
        self.finish(statement)
    }

    /// The statement that begins here, up to its `;`, LF or the text's end.
    pub fn statement(&mut self) -> Result<Statement, Fault>
        ensures forward { Advances self.old self.new }
        ensures finishes { Finishes read_words self.old result self.new }
    {
        let kind = self.take()?;
        self.operands(kind)
    }
}
