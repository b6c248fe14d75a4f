//! The store of a script: a book that begins with no vertices.

ghost use Rattle.std.specs.Prelude.{◌≡◌, ◌≢◌, ◌<◌, ℕ, [], IfOk, OnOk, OnErr, MatchOption, length};
ghost use Rattle.std.specs.Arc.{arc_value};
ghost use Rattle.lama_model.specs.Opening.{empty_opening};
ghost use Rattle.lama_model.specs.Journal.{reply_at};
ghost use Rattle.lama_model.specs.Text.{look_of};
ghost use Rattle.lama_model.specs.declared.answers.Reply.TheVariants.{Snapshot as SeenSnapshot};
ghost use Rattle.lama_model.specs.declared.calls.Call.TheVariants.{Write as WriteCall, Checkpoint, Look, LookAt, Install, Retire};
ghost use Rattle.lama_book.specs.Relation.{IsBookOf};
ghost use Rattle.llama_main.specs.Store.{held_by, called, IsFound};
ghost use Rattle.llama_main.specs.Expected.{newest_held};

use lama_book::{Book, Looked, Opening};
use lama_merge::Merged;
use lama_model::{PlainRows, Reply, Write};
use lama_pages::Steps;
use std::alloc::{AllocError, Global};
use std::marker::Model;
use std::sync::Arc;
use std::sync::ledger::Ledger;

/// The calls of a script, answered by a book.
#[derive(Drop)]
pub struct Store {
    book: Book,
}

impl Model for Store {
    ghost use Rattle.lama_model.specs.Opening.{empty_opening};
    ghost use Rattle.lama_book.specs.Relation.{IsBookOf};
    ghost use Rattle.llama_main.specs.Store.{Held, held_by};

    ghost Value = { Held };

    ghost view = { λ s. held_by s.book.journal };

    ghost invariant = { λ s. IsBookOf empty_opening s.book };
}

impl Store {
    /// A store without vertices, before any call.
    pub fn new<L: Ledger>(alloc: Global, pages: &mut Steps<L>) -> Result<Store, AllocError>
        ensures { IfOk result (λ s. s ≡ held_by []) }
    {
        let rows = PlainRows::from_edges(alloc, 0, &[])?;
        let opening = Opening::from_rows(alloc, 0, &rows, pages)?;
        Ok(Store {
            book: Book::new(alloc, opening)?,
        })
    }

    /// The book, with the calls so far.
    pub fn into_book(self) -> Book
        ensures journal { result.journal ≡ self.journal }
        ensures book { IsBookOf empty_opening result }
    {
        self.book
    }

    /// How many calls were made.
    pub fn calls(&self) -> u32
        ensures { result ≡ length self.now.journal }
    {
        self.book.journal().len() as u32
    }

    /// Takes a write.
    pub fn write(&mut self, w: Write) -> Result<Reply, AllocError>
        requires room { length self.old.journal < 4194304 }
        ensures reply { IfOk result (λ r. r ≡ reply_at empty_opening self.old.standing (WriteCall w)) }
        ensures after { OnOk result (self.new ≡ called self.old (WriteCall w)) }
        ensures err { OnErr result (self.new ≡ self.old) }
    {
        let Ok(reply) = self.book.write(0, w) else {
            return Err(AllocError);
        };
        Ok(reply)
    }

    /// Makes the standing graph the graph of the next number.
    pub fn checkpoint<L: Ledger>(&mut self, pages: &mut Steps<L>) -> Result<Reply, AllocError>
        ensures reply { IfOk result (λ r. r ≡ reply_at empty_opening self.old.standing Checkpoint) }
        ensures after { OnOk result (self.new ≡ called self.old Checkpoint) }
        ensures err { OnErr result (self.new ≡ self.old) }
    {
        let Ok(reply) = self.book.checkpoint(0, pages) else {
            return Err(AllocError);
        };
        Ok(reply)
    }

    /// Gathers the levels of the newest snapshot into a base, and installs it.
    pub fn merge<L: Ledger>(
        &mut self,
        alloc: Global,
        pages: &mut Steps<L>,
    ) -> Result<Reply, AllocError>
        ensures reply { IfOk result (λ r. r ≡ reply_at empty_opening (called self.old Look).standing (Install (newest_held self.old))) }
        ensures after { OnOk result (self.new ≡ called (called self.old Look) (Install (newest_held self.old))) }
    {
        let Ok(newest) = self.book.look(0) else {
            return Err(AllocError);
        };
        let merged = Merged::build(alloc, &newest, pages)?;
        let merged = Arc::new(alloc, merged)?;
        let Ok(reply) = self.book.install(0, &merged, pages) else {
            return Err(AllocError);
        };
        Ok(reply)
    }

    /// Lets the snapshots before that of the number go.
    pub fn retire(&mut self, k: u32) -> Result<Reply, AllocError>
        ensures reply { IfOk result (λ r. r ≡ reply_at empty_opening self.old.standing (Retire k)) }
        ensures after { OnOk result (self.new ≡ called self.old (Retire k)) }
        ensures err { OnErr result (self.new ≡ self.old) }
    {
        let Ok(reply) = self.book.retire(0, k) else {
            return Err(AllocError);
        };
        Ok(reply)
    }

    /// Looks for the newest snapshot, or for the one of a number.
    pub fn look(&mut self, at: Option<u32>) -> Result<Looked, AllocError>
        requires room { length self.old.journal < 4194304 }
        ensures reply { IfOk result (λ l. l.reply ≡ reply_at empty_opening self.old.standing (look_of at)) }
        ensures found { IfOk result (λ l. MatchOption l.snapshot ((k : ℕ) → l.reply ≢ SeenSnapshot k) (λ a. IsFound self.new.standing l.reply (arc_value a))) }
        ensures after { OnOk result (self.new ≡ called self.old (look_of at)) }
        ensures err { OnErr result (self.new ≡ self.old) }
    {
        match at {
            None => self.look_newest(),
            Some(k) => self.look_at(k),
        }
    }

    fn look_newest(&mut self) -> Result<Looked, AllocError>
        ensures reply { IfOk result (λ l. l.reply ≡ reply_at empty_opening self.old.standing Look) }
        ensures found { IfOk result (λ l. MatchOption l.snapshot ((k : ℕ) → l.reply ≢ SeenSnapshot k) (λ a. IsFound self.new.standing l.reply (arc_value a))) }
        ensures after { OnOk result (self.new ≡ called self.old Look) }
        ensures err { OnErr result (self.new ≡ self.old) }
    {
        let Ok(snapshot) = self.book.look(0) else {
            return Err(AllocError);
        };
        Ok(Looked {
            reply: Reply::Snapshot {
                number: snapshot.number(),
            },
            snapshot: Some(snapshot),
        })
    }

    fn look_at(&mut self, k: u32) -> Result<Looked, AllocError>
        ensures reply { IfOk result (λ l. l.reply ≡ reply_at empty_opening self.old.standing (LookAt k)) }
        ensures found { IfOk result (λ l. MatchOption l.snapshot ((n : ℕ) → l.reply ≢ SeenSnapshot n) (λ a. IsFound self.new.standing l.reply (arc_value a))) }
        ensures after { OnOk result (self.new ≡ called self.old (LookAt k)) }
        ensures err { OnErr result (self.new ≡ self.old) }
    {
        let Ok(looked) = self.book.look_at(0, k) else {
            return Err(AllocError);
        };
        Ok(looked)
    }
}
