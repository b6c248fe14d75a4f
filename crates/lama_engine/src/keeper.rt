ghost use Rattle.std.specs.Prelude.{◌≡◌, ◌≢◌, ◌+◌, ◌<◌, ◌≤◌, [], ◌∷◌, ◌++◌, IfOk, IfErr, OnOk, OnErr, length};
ghost use Rattle.lama_model.specs.Opening.{Opening as ModelOpening};
ghost use Rattle.lama_model.specs.declared.calls.Call.TheVariants.{Checkpoint as SeenCheckpoint};
ghost use Rattle.lama_book.specs.Book.{Book as SeenBook};
ghost use Rattle.lama_book.specs.Relation.{IsBookOf};
ghost use Rattle.lama_engine.specs.Asks.{call_of, room_of, Gives, Fails, pages_of};
ghost use Rattle.lama_engine.specs.Faults.{fails-below};

use crate::asks::{Ask, Given};
use lama_book::{Book, CallFault};
use lama_lock::Kept;
use lama_pages::Steps;
use std::marker::Model;
use std::sync::ledger::Ledger;

/// A book as the hall keeps it.
#[derive(Drop)]
pub struct Keeper {
    book: Book,
}

impl Model for Keeper {
    ghost use Rattle.std.specs.Prelude.{◌≤◌, length};
    ghost use Rattle.lama_book.specs.Book as seen;

    ghost Value = { seen.Book };

    ghost view = { λ k. k.book };

    ghost invariant = { λ k. length k.book.journal ≤ 4194304 };
}

impl Keeper {
    pub(crate) fn new(book: Book) -> Keeper
        ensures { result ≡ book }
    {
        let _calls = book.journal();
        Keeper { book }
    }

    pub(crate) fn into_book(self) -> Book
        ensures { result ≡ self }
    {
        self.book
    }
}

impl Kept for Keeper {
    type Ask = Ask;

    type Answer = Given;

    type Fault = CallFault;

    ghost Setting = { ModelOpening };

    ghost fits = { λ o b. IsBookOf o b };

    ghost journal = { λ b. b.journal };

    ghost room = { room_of };

    ghost call = { call_of };

    ghost may = { λ o journal ask. Unit {0} };

    ghost gives = { Gives };

    ghost fails = { Fails };

    ghost bound = { pages_of };

    fn taken(&self) -> u32 {
        self.book.journal().len() as u32
    }

    fn serve<L: Ledger>(
        &mut self,
        caller: u16,
        ask: Ask,
        pages: &mut Steps<L>,
    ) -> Result<Given, CallFault> {
        match ask {
            Ask::Write(w) => match self.book.write(caller, w) {
                Ok(reply) => Ok(Given::Replied(reply)),
                Err(fault) => Err(fault),
            },
            Ask::Checkpoint => match self.book.checkpoint(caller, pages) {
                Ok(reply) => Ok(Given::Replied(reply)),
                Err(fault) => Err(fault),
            },
            Ask::Look => match self.book.look(caller) {
                Ok(newest) => Ok(Given::Newest(newest)),
                Err(fault) => Err(fault),
            },
            Ask::LookAt { k } => match self.book.look_at(caller, k) {
                Ok(found) => Ok(Given::Found(found)),
                Err(fault) => Err(fault),
            },
            Ask::Retire { k } => match self.book.retire(caller, k) {
                Ok(reply) => Ok(Given::Replied(reply)),
                Err(fault) => Err(fault),
            },
        }
    }

    ghost stays = { λ o seen more ask may. tt };

    ghost lowers = { fails-below };
}
