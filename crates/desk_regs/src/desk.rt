//! The desk, on which commands are carried out.

ghost use Rattle.std.specs.Prelude.{◌≡◌, ◌++◌, [], false, OnOk, OnErr, IfOk};
ghost use Rattle.std.specs.Borrow.{sem};
ghost use Rattle.desk_core.specs.Book.{IsDecisionOf};
ghost use Rattle.desk_core.specs.Commands.{collects};
ghost use Rattle.desk_core.specs.Ranges.{IsInRange};

use crate::writing::write_all;
use desk_core::{Book, Command, Decision, Reply};
use reg_words::{Regs, Writer};
use std::alloc::{AllocError, Global};
use std::marker::Model;

/// The writer of the registers, and the book that decides what it writes. It is seen as these two.
///
/// A desk is level where the writer's journal is the book's, the limits are equal, and all is published.
#[derive(Drop)]
pub struct Desk {
    writer: Writer,
    book: Book,
}

impl Model for Desk {
    ghost use Rattle.desk_regs.specs.Desks.{DeskState};

    ghost Value = { DeskState };

    ghost view = { λ d. record { writer = d.writer; book = d.book } };
}

impl Desk {
    ghost use Rattle.desk_regs.specs.Desks.{IsLevel, Enacted, Commanded, with_journal};
    ghost use Rattle.desk_regs.specs.Lending.{LendsWriter};

    /// A desk on which no command was carried out yet. It takes no memory.
    pub fn new(writer: Writer, book: Book) -> Desk
        requires empty { (writer.journal ≡ []) × (book.journal ≡ []) }
        requires limits { writer.origin.limits ≡ book.limits }
        ensures desk { result ≡ record { writer = writer; book = book } }
        ensures level { IsLevel result }
    {
        // It is the length of the journal at most, so all of an empty journal is published.
        let _ = writer.front();
        Desk { writer, book }
    }

    /// Carries a command out that ends no phase: decides it by the book, writes what it writes, and
    /// publishes that. Answers the command's reply. All memory is taken before the first write; where it is
    /// wanting, the desk stays as it was.
    pub fn command(
        &mut self,
        alloc: Global,
        regs: &Regs,
        command: &Command,
    ) -> Result<Reply, AllocError>
        requires from { self.old.writer.origin ≡ regs.now }
        requires level { IsLevel self.old }
        requires range { IsInRange command.now }
        requires ends_no_phase { collects command.now ≡ false }
        ensures ok { IfOk result (λ answer. Commanded self.old.book.privileged self.old.book.limits self.old.book.journal command.now answer self.new.book.journal) }
        ensures rest { self.new ≡ with_journal self.new.book.journal self.old }
        ensures level { IsLevel self.new }
        ensures err { OnErr result (self.new ≡ self.old) }
    {
        let decision = self.book.decide(alloc, command)?;
        self.enact(regs, &decision)?;
        Ok(decision.reply)
    }

    /// Writes what the book decided, and publishes it: the writes stand at the end of both journals. All
    /// memory is taken before the first write; where it is wanting, the desk stays as it was.
    pub fn enact(&mut self, regs: &Regs, decision: &Decision) -> Result<(), AllocError>
        requires from { self.old.writer.origin ≡ regs.now }
        requires level { IsLevel self.old }
        requires decided { IsDecisionOf self.old.book decision.now }
        ensures ok { OnOk result (Enacted decision.now.writes self.old.book.journal self.new.book.journal) }
        ensures rest { self.new ≡ with_journal self.new.book.journal self.old }
        ensures level { IsLevel self.new }
        ensures err { OnErr result (self.new ≡ self.old) }
    {
        self.book.take(decision)?;
        write_all(regs, &mut self.writer, decision.writes.as_slice());
        regs.publish(&mut self.writer);
        Ok(())
    }

    /// Lends the writer, which meets readers. What the borrower leaves of it is the desk's writer then, so
    /// whether the desk is level depends on that.
    pub fn writer(&mut self) -> &mut Writer
        ensures* writes_back { sem 𝓛 (LendsWriter self.entry result) }
        ensures value { result.now ≡ self.old.writer }
    {
        &mut self.writer
    }

    /// The book.
    pub fn book(&self) -> &Book
        ensures { result.now ≡ self.now.book }
    {
        &self.book
    }

    /// The writer, for one who is done with the desk.
    pub fn into_writer(self) -> Writer
        ensures { result ≡ self.writer }
    {
        self.writer
    }
}
