ghost use Rattle.std.specs.Prelude.{◌≡◌, ◌≢◌, ◌+◌, ◌≤◌, ℕ, All, IfOk, IfErr, OnOk, OnErr, MatchOption, MatchResult, Err as SeenErr, length, map, take, drop};
ghost use Rattle.std.specs.List.{range_with_len};
ghost use Rattle.std.specs.Arc.{arc_value};
ghost use Rattle.lama_model.specs.Bounds.{checkpoint_pages};
ghost use Rattle.lama_model.specs.Opening.{Opening as ModelOpening};
ghost use Rattle.lama_model.specs.Journal.{standing, newest, newest_of, reply};
ghost use Rattle.lama_model.specs.Pass.{SeesMore, StepsTo, BeginsWith, IsByOneOf, calls_by};
ghost use Rattle.lama_model.specs.declared.calls.Call.TheVariants.{Write as SeenWrite, Checkpoint as SeenCheckpoint, Look as SeenLook, LookAt as SeenLookAt, Retire as SeenRetire};
ghost use Rattle.lama_model.specs.declared.answers.Reply.TheVariants.{Snapshot as SeenSnapshot};
ghost use Rattle.lama_model.specs.declared.answers.Reply.{Reply as SeenReply};
ghost use Rattle.lama_book.specs.Relation.{IsBookOf, IsSnapshotOf};
ghost use Rattle.lama_book.specs.declared.fault.CallFault.TheVariants.{JournalFull, NoMemory};
ghost use Rattle.lama_lock.specs.Hall.{IsPassOf, AreAll, first_pass};
ghost use Rattle.lama_engine.specs.declared.asks.Given.TheVariants.{Replied, Newest, Found};
ghost use Rattle.lama_engine.specs.Asks.{call_of, room_of, Gives, Fails, pages_of, next_change_of};

use crate::asks::{Ask, Given};
use crate::keeper::Keeper;
use lama_book::{Book, CallFault, Looked};
use lama_lock::{Hall, Placed};
use lama_model::{Reply, Write};
use lama_pages::Steps;
use lama_snapshot::Snapshot;
use std::alloc::{AllocError, Global};
use std::marker::{Brand, Model};
use std::sync::ledger::{Blank, Ledger};
use std::sync::{Arc, Wait};

/// A lane of an engine: its number, the journal that it has seen, and its own calls.
pub type Pass = lama_lock::Pass<Keeper>;

/// A book that lanes in threads call. A contract sees which engine it is, the book with which it began, and how many lanes
/// it has.
#[derive(Drop)]
pub struct Engine {
    hall: Hall<Keeper>,
}

impl Model for Engine {
    ghost use Rattle.lama_model.specs.Opening.{Opening as ModelOpening};
    ghost use Rattle.lama_book.specs.Book as book;
    ghost use Rattle.lama_book.specs.Relation.{IsBookOf};
    ghost use Rattle.lama_lock.specs.Hall as seen;

    ghost Value = { seen.Hall book.Book };

    ghost view = { λ e. e.hall };

    ghost invariant = { λ e. (o : ModelOpening) × IsBookOf o e.hall.start };
}

impl Engine {
    /// An engine for so many lanes over the book, and the lanes' passes, whose numbers are from 1 on. At `Err` there was no
    /// memory, and the book comes back.
    pub fn start(alloc: Global, book: Book, lanes: u16) -> Result<(Engine, Vec<Pass>), Book>
        requires some { 1 ≤ lanes }
        requires few { lanes ≤ 16 }
        requires opening { (o : ModelOpening) × IsBookOf o book }
        ensures engine { IfOk result (λ r. (r.0.start ≡ book) × (r.0.callers ≡ lanes)) }
        ensures passes { IfOk result (λ r. r.1.items ≡ map (first_pass (λ b. b.journal) r.0) (range_with_len 1 lanes)) }
        ensures ours { IfOk result (λ r. All (IsPassOf r.0) r.1.items) }
        ensures all { IfOk result (λ r. AreAll r.0 r.1.items) }
        ensures err { IfErr result (λ b. b ≡ book) }
    {
        match Hall::start(alloc, Keeper::new(book), lanes) {
            Ok((hall, passes)) => Ok((Engine { hall }, passes)),
            Err(keeper) => Err(keeper.into_book()),
        }
    }

    /// Takes a write. Where it is accepted, it waits for the next checkpoint.
    pub fn write<R: Wait>(
        &self,
        rt: &R,
        pass: &mut Pass,
        w: Write,
    ) -> Result<Placed<Reply>, CallFault>
        requires ours { IsPassOf self.now pass.old }
        ensures ours { IsPassOf self.now pass.new }
        ensures call { IfOk result (λ p. StepsTo self.now.callers pass.old.known (SeenWrite w) p.place pass.new.known) }
        ensures reply { IfOk result (λ p. (o : ModelOpening) → IsBookOf o self.now.start → p.answer ≡ reply o (take p.place pass.new.known.seen) (SeenWrite w)) }
        ensures unserved { OnErr result (SeesMore pass.old.known pass.new.known) }
        ensures full { result ≡ SeenErr JournalFull → length pass.new.known.seen ≡ 4194304 }
        ensures memory { result ≡ SeenErr NoMemory → room_of self.now.start ≤ length pass.new.known.seen }
    {
        match self.uncounted::<R, Brand>(rt, pass, Ask::Write(w), Blank::new(1)) {
            Ok(placed) => Ok(replied(placed)),
            Err(fault) => Err(fault),
        }
    }

    /// Makes the standing graph the graph of the next number, and a snapshot of it.
    pub fn checkpoint<R: Wait, L: Ledger>(
        &self,
        rt: &R,
        pass: &mut Pass,
        pages: &mut Steps<L>,
    ) -> Result<Placed<Reply>, CallFault>
        requires ours { IsPassOf self.now pass.old }
        ensures ours { IsPassOf self.now pass.new }
        ensures call { IfOk result (λ p. StepsTo self.now.callers pass.old.known SeenCheckpoint p.place pass.new.known) }
        ensures reply { IfOk result (λ p. (o : ModelOpening) → IsBookOf o self.now.start → p.answer ≡ reply o (take p.place pass.new.known.seen) SeenCheckpoint) }
        ensures unserved { OnErr result (SeesMore pass.old.known pass.new.known) }
        ensures full { result ≡ SeenErr JournalFull → length pass.new.known.seen ≡ 4194304 }
        ensures pages { (o : ModelOpening) → IsBookOf o self.now.start → MatchResult result
            (λ p. pages.new ≤ pages.old + checkpoint_pages (next_change_of o (standing o (take p.place pass.new.known.seen))))
            (λ f. pages.new ≤ pages.old + checkpoint_pages (next_change_of o (standing o pass.new.known.seen))) }
    {
        match self.hall.enter(rt, pass, Ask::Checkpoint, pages) {
            Ok(placed) => Ok(replied(placed)),
            Err(fault) => Err(fault),
        }
    }

    /// Hands out the newest snapshot. Its number is never below one that the lane knew of.
    pub fn look<R: Wait>(
        &self,
        rt: &R,
        pass: &mut Pass,
    ) -> Result<Placed<Arc<Snapshot, Global>>, CallFault>
        requires ours { IsPassOf self.now pass.old }
        ensures ours { IsPassOf self.now pass.new }
        ensures call { IfOk result (λ p. StepsTo self.now.callers pass.old.known SeenLook p.place pass.new.known) }
        ensures snapshot { IfOk result (λ p. (o : ModelOpening) → IsBookOf o self.now.start → IsSnapshotOf o (standing o pass.new.known.seen) (newest_of o (standing o pass.new.known.seen)) (arc_value p.answer)) }
        ensures later { IfOk result (λ p. (o : ModelOpening) → IsBookOf o self.now.start → newest o pass.old.known.seen ≤ (arc_value p.answer).number) }
        ensures unserved { OnErr result (SeesMore pass.old.known pass.new.known) }
        ensures full { result ≡ SeenErr JournalFull → length pass.new.known.seen ≡ 4194304 }
    {
        match self.uncounted::<R, Brand>(rt, pass, Ask::Look, Blank::new(1)) {
            Ok(placed) => Ok(newest(placed)),
            Err(fault) => Err(fault),
        }
    }

    /// Hands out the snapshot of the number `k`, where it is kept.
    pub fn look_at<R: Wait>(
        &self,
        rt: &R,
        pass: &mut Pass,
        k: u32,
    ) -> Result<Placed<Looked>, CallFault>
        requires ours { IsPassOf self.now pass.old }
        ensures ours { IsPassOf self.now pass.new }
        ensures call { IfOk result (λ p. StepsTo self.now.callers pass.old.known (SeenLookAt k) p.place pass.new.known) }
        ensures reply { IfOk result (λ p. (o : ModelOpening) → IsBookOf o self.now.start → p.answer.reply ≡ reply o (take p.place pass.new.known.seen) (SeenLookAt k)) }
        ensures snapshot { IfOk result (λ p. (o : ModelOpening) → IsBookOf o self.now.start → MatchOption p.answer.snapshot ((n : ℕ) → p.answer.reply ≢ SeenSnapshot n) (λ a.
            (p.answer.reply ≡ SeenSnapshot k) × IsSnapshotOf o (standing o pass.new.known.seen) k (arc_value a))) }
        ensures unserved { OnErr result (SeesMore pass.old.known pass.new.known) }
        ensures full { result ≡ SeenErr JournalFull → length pass.new.known.seen ≡ 4194304 }
    {
        match self.uncounted::<R, Brand>(rt, pass, Ask::LookAt { k }, Blank::new(1)) {
            Ok(placed) => Ok(found(placed)),
            Err(fault) => Err(fault),
        }
    }

    /// Makes the snapshot of the number `k` the oldest one, where it is kept, and lets those before it go.
    pub fn retire<R: Wait>(
        &self,
        rt: &R,
        pass: &mut Pass,
        k: u32,
    ) -> Result<Placed<Reply>, CallFault>
        requires ours { IsPassOf self.now pass.old }
        ensures ours { IsPassOf self.now pass.new }
        ensures call { IfOk result (λ p. StepsTo self.now.callers pass.old.known (SeenRetire k) p.place pass.new.known) }
        ensures reply { IfOk result (λ p. (o : ModelOpening) → IsBookOf o self.now.start → p.answer ≡ reply o (take p.place pass.new.known.seen) (SeenRetire k)) }
        ensures unserved { OnErr result (SeesMore pass.old.known pass.new.known) }
        ensures full { result ≡ SeenErr JournalFull → length pass.new.known.seen ≡ 4194304 }
        ensures memory { result ≡ SeenErr NoMemory → room_of self.now.start ≤ length pass.new.known.seen }
    {
        match self.uncounted::<R, Brand>(rt, pass, Ask::Retire { k }, Blank::new(1)) {
            Ok(placed) => Ok(replied(placed)),
            Err(fault) => Err(fault),
        }
    }

    /// The book, once all lanes are back. Their calls are the journal's entries since the start. At `Err` the book is given up.
    pub fn finish(self, passes: Vec<Pass>) -> Result<Book, AllocError>
        requires ours { All (IsPassOf self) passes.items }
        requires all { AreAll self passes.items }
        ensures opening { IfOk result (λ b. (o : ModelOpening) → IsBookOf o self.start → IsBookOf o b) }
        ensures began { IfOk result (λ b. BeginsWith b.journal self.start.journal) }
        ensures seen { IfOk result (λ b. All (λ p. BeginsWith b.journal p.known.seen) passes.items) }
        ensures named { IfOk result (λ b. All (IsByOneOf self.callers) (drop (length self.start.journal) b.journal)) }
        ensures own { IfOk result (λ b. All (λ p. p.known.own ≡ calls_by p.known.caller (length self.start.journal) b.journal) passes.items) }
    {
        let keeper = self.hall.close(passes)?;
        Ok(keeper.into_book())
    }

    // A call that makes no pages.
    fn uncounted<R: Wait, L: Ledger>(
        &self,
        rt: &R,
        pass: &mut Pass,
        ask: Ask,
        blank: Blank,
    ) -> Result<Placed<Given>, CallFault>
        requires name { blank.name ≡ L.name }
        requires parts { blank.parts ≡ L.parts }
        requires one { blank.parts ≡ 1 }
        requires ours { IsPassOf self.now pass.old }
        ensures ours { IsPassOf self.now pass.new }
        ensures call { IfOk result (λ p. StepsTo self.now.callers pass.old.known (call_of ask) p.place pass.new.known) }
        ensures answer { IfOk result (λ p. (o : ModelOpening) → IsBookOf o self.now.start → Gives o (take p.place pass.new.known.seen) ask p.answer) }
        ensures some { (o : ModelOpening) × IsBookOf o self.now.start }
        ensures unserved { OnErr result (SeesMore pass.old.known pass.new.known) }
        ensures fault { IfErr result (λ f. (o : ModelOpening) → IsBookOf o self.now.start → Fails o pass.new.known.seen (room_of self.now.start) ask f) }
    {
        let mut pages = Steps::<L>::open(blank);
        self.hall.enter(rt, pass, ask, &mut pages)
    }
}

// What was answered to a write, a checkpoint or a retirement.
fn replied(placed: Placed<Given>) -> Placed<Reply>
    requires { (r : SeenReply) × (placed.answer ≡ Replied r) }
    ensures place { result.place ≡ placed.place }
    ensures answer { placed.answer ≡ Replied result.answer }
{
    let Placed { place, answer } = placed;
    let Given::Replied(answer) = answer else {
        unreachable!()
    };
    Placed { place, answer }
}

// What was answered to a look.
fn newest(placed: Placed<Given>) -> Placed<Arc<Snapshot, Global>>
    requires { (a : _) × (placed.answer ≡ Newest a) }
    ensures place { result.place ≡ placed.place }
    ensures answer { placed.answer ≡ Newest result.answer }
{
    let Placed { place, answer } = placed;
    let Given::Newest(answer) = answer else {
        unreachable!()
    };
    Placed { place, answer }
}

// What was answered to a look at a number.
fn found(placed: Placed<Given>) -> Placed<Looked>
    requires { (l : _) × (placed.answer ≡ Found l) }
    ensures place { result.place ≡ placed.place }
    ensures answer { placed.answer ≡ Found result.answer }
{
    let Placed { place, answer } = placed;
    let Given::Found(answer) = answer else {
        unreachable!()
    };
    Placed { place, answer }
}
