ghost use Rattle.std.specs.Prelude.{◌≡◌, ◌≢◌, ◌↔◌, ◌+◌, ◌-◌, ◌<◌, ◌≤◌, ◌⊎◌, nat_le, if◌then◌else◌, [], ◌∷◌, ◌++◌, ℕ, true, Ok as SeenOk, Err as SeenErr, IfOk, IfErr, OnOk, OnErr, MatchOption, length, map};
ghost use Rattle.std.specs.Arc.{arc_value};
ghost use Rattle.lama_model.specs.Bounds.{checkpoint_pages};
ghost use Rattle.lama_model.specs.Opening.{Opening as ModelOpening};
ghost use Rattle.lama_model.specs.Journal.{Standing, reply, is_accepted, edges_added, with_ends};
ghost use Rattle.lama_model.specs.Graph.{effect};
ghost use Rattle.lama_model.specs.declared.calls.Call.TheVariants.{Write as SeenWrite, Checkpoint as SeenCheckpoint, Look as SeenLook, LookAt as SeenLookAt, Install as SeenInstall, Retire as SeenRetire};
ghost use Rattle.lama_model.specs.declared.answers.Refusal.{Refusal as SeenRefusal};
ghost use Rattle.lama_model.specs.declared.answers.Refusal.TheVariants.{FullEdges, NoSnapshot};
ghost use Rattle.lama_model.specs.declared.answers.Reply.TheVariants.{Accepted, Snapshot as SeenSnapshot, Refused as SeenRefused};
ghost use Rattle.lama_snapshot.specs.Snap.{floor_of};
ghost use Rattle.lama_book.specs.declared.fault.CallFault.TheVariants.{JournalFull, NoMemory};
ghost use Rattle.lama_book.specs.Book.{newest_number, last_snap, snap_at, answers, next_change, IsRoomier, HasEntry, HasWrite, HasNext, HasCheckpoint, IsForgotten, IsOnto, IsNext};
ghost use Rattle.lama_book.specs.Relation.{Opens, IsBookOf};

use crate::{CallFault, Opening};
use lama_base::limits::{MAX_EDGES, MAX_JOURNAL, MAX_KEPT, MAX_NUMBER, MAX_VERTICES};
use lama_delta::Delta;
use lama_merge::{Merged, rebase};
use lama_model::{Call, Entry, Refusal, Reply, Rows, Write};
use lama_pages::Steps;
use lama_snapshot::Snapshot;
use std::alloc::{AllocError, Global};
use std::marker::Model;
use std::sync::Arc;
use std::sync::ledger::Ledger;

/// A store of a changing graph. A contract sees its journal, its kept snapshots, its pending writes and its counts.
///
/// A write waits until a checkpoint makes it part of a snapshot. Each call has one entry in the journal.
#[derive(Drop)]
pub struct Book {
    alloc: Global,
    journal: Vec<Entry>,
    delta: Delta,
    // The oldest first.
    kept: Vec<Arc<Snapshot, Global>>,
    count: u32,
    added: u32,
    oldest: u32,
}

impl Model for Book {
    ghost use Rattle.lama_book.specs.Book as seen;
    ghost use Rattle.lama_book.specs.Shown.{shown, IsShown};

    ghost Value = { seen.Book };

    ghost view = { shown };

    ghost invariant = { IsShown };
}

/// What a look at a number finds: the reply, and the snapshot where the reply is its number.
#[derive(Drop)]
pub struct Looked {
    pub reply: Reply,
    pub snapshot: Option<Arc<Snapshot, Global>>,
}

impl Book {
    /// The book that begins with the opening, before any call.
    pub fn new(alloc: Global, opening: Opening) -> Result<Book, AllocError>
        ensures journal { IfOk result (λ b. b.journal ≡ []) }
        ensures book { IfOk result (λ b. (o : ModelOpening) → Opens o opening → IsBookOf o b) }
    {
        let snapshot: &Snapshot = &opening.snapshot;
        let count = snapshot.count();
        let added = snapshot.edge_count();
        let oldest = snapshot.number();
        Ok(Book {
            alloc,
            journal: Vec::new(alloc),
            delta: Delta::new(alloc),
            kept: vec![in alloc; opening.snapshot]?,
            count,
            added,
            oldest,
        })
    }

    /// How many writes more take no memory, which is at most [`lama_base::limits::MAX_JOURNAL`].
    pub fn spare(&self) -> u32
        ensures { result ≡ self.now.spare }
    {
        let room = self.journal.capacity() - self.journal.len();
        let pending = self.delta.spare();
        let spare = if pending < room { pending } else { room };
        if spare < MAX_JOURNAL as usize {
            spare as u32
        } else {
            MAX_JOURNAL
        }
    }

    /// Makes room for `n` entries, of which each takes at most one.
    pub fn reserve(&mut self, n: u32) -> Result<(), AllocError>
        requires { n ≤ 4194304 }
        ensures same { IsRoomier self.old self.new }
        ensures room { OnOk result (n ≤ self.new.spare) }
    {
        self.journal.reserve(n as usize)?;
        self.delta.reserve(n)
    }

    /// Takes a write. Where it is accepted, it waits for the next checkpoint. Costs constant time, amortised.
    pub fn write(&mut self, caller: u16, w: Write) -> Result<Reply, CallFault>
        ensures reply { IfOk result (λ r. (o : ModelOpening) → IsBookOf o self.old → r ≡ reply o self.old.journal (SeenWrite w)) }
        ensures book { OnOk result ((o : ModelOpening) → IsBookOf o self.old → IsBookOf o self.new) }
        ensures entry { OnOk result (self.new.journal ≡ self.old.journal ++ record { caller = caller; call = SeenWrite w } ∷ []) }
        ensures spare { OnOk result (self.old.spare ≤ self.new.spare + 1) }
        ensures fault { OnErr result (IsRoomier self.old self.new) }
        ensures full { (result ≡ SeenErr JournalFull) ↔ (length self.old.journal ≡ 4194304) }
        ensures memory { 0 < self.old.spare → result ≢ SeenErr NoMemory }
    {
        self.enter()?;
        let entry = Entry {
            caller,
            call: Call::Write(w),
        };
        Ok(self.take(entry, w))
    }

    /// Makes the standing graph the graph of the next number, and a snapshot of it. Costs the pending writes times
    /// their logarithm, the rows in which they take edges away or weigh them anew, a pointer for each page of the
    /// vertex table and for each level, and one for each page of the marks or the weights of a table that is touched.
    pub fn checkpoint<L: Ledger>(
        &mut self,
        caller: u16,
        pages: &mut Steps<L>,
    ) -> Result<Reply, CallFault>
        ensures reply { IfOk result (λ r. (o : ModelOpening) → IsBookOf o self.old → r ≡ reply o self.old.journal SeenCheckpoint) }
        ensures book { OnOk result ((o : ModelOpening) → IsBookOf o self.old → IsBookOf o self.new) }
        ensures entry { OnOk result (self.new.journal ≡ self.old.journal ++ record { caller = caller; call = SeenCheckpoint } ∷ []) }
        ensures spare { OnOk result (self.old.spare ≤ self.new.spare + 1) }
        ensures fault { OnErr result (IsRoomier self.old self.new) }
        ensures full { (result ≡ SeenErr JournalFull) ↔ (length self.old.journal ≡ 4194304) }
        ensures made { pages.new ≤ pages.old + checkpoint_pages (next_change self.old) }
        ensures none_made { (r : SeenRefusal) → result ≡ SeenOk (SeenRefused r) → pages.new ≡ pages.old }
        ensures none_in_full { result ≡ SeenErr JournalFull → pages.new ≡ pages.old }
    {
        self.enter()?;
        let entry = Entry {
            caller,
            call: Call::Checkpoint,
        };
        let number = self.newest();
        if number >= MAX_NUMBER {
            return Ok(self.refuse(entry, Refusal::FullNumbers));
        }
        if self.kept.len() >= MAX_KEPT as usize {
            return Ok(self.refuse(entry, Refusal::FullKept));
        }
        let Ok(()) = self.keep_next(pages) else {
            return Err(CallFault::NoMemory);
        };
        self.note(entry);
        Ok(Reply::Snapshot { number: number + 1 })
    }

    /// Hands out the newest snapshot.
    pub fn look(&mut self, caller: u16) -> Result<Arc<Snapshot, Global>, CallFault>
        ensures snapshot { IfOk result (λ a. arc_value a ≡ last_snap self.old) }
        ensures book { OnOk result ((o : ModelOpening) → IsBookOf o self.old → IsBookOf o self.new) }
        ensures entry { OnOk result (self.new.journal ≡ self.old.journal ++ record { caller = caller; call = SeenLook } ∷ []) }
        ensures spare { OnOk result (self.old.spare ≤ self.new.spare + 1) }
        ensures fault { OnErr result (IsRoomier self.old self.new) }
        ensures full { (result ≡ SeenErr JournalFull) ↔ (length self.old.journal ≡ 4194304) }
    {
        self.enter()?;
        let Ok(last) = Arc::try_clone(&self.kept[self.kept.len() - 1]) else {
            return Err(CallFault::NoMemory);
        };
        let entry = Entry {
            caller,
            call: Call::Look,
        };
        self.note(entry);
        Ok(last)
    }

    /// Hands out the snapshot of the number `k`, where it is kept.
    pub fn look_at(&mut self, caller: u16, k: u32) -> Result<Looked, CallFault>
        ensures reply { IfOk result (λ l. (o : ModelOpening) → IsBookOf o self.old → l.reply ≡ reply o self.old.journal (SeenLookAt k)) }
        ensures snapshot { IfOk result (λ l. MatchOption l.snapshot ((n : ℕ) → l.reply ≢ SeenSnapshot n) (λ a.
            (l.reply ≡ SeenSnapshot k) × (self.old.oldest ≤ k) × (k ≤ newest_number self.old) × (arc_value a ≡ snap_at self.old k))) }
        ensures book { OnOk result ((o : ModelOpening) → IsBookOf o self.old → IsBookOf o self.new) }
        ensures entry { OnOk result (self.new.journal ≡ self.old.journal ++ record { caller = caller; call = SeenLookAt k } ∷ []) }
        ensures spare { OnOk result (self.old.spare ≤ self.new.spare + 1) }
        ensures fault { OnErr result (IsRoomier self.old self.new) }
        ensures full { (result ≡ SeenErr JournalFull) ↔ (length self.old.journal ≡ 4194304) }
    {
        self.enter()?;
        let entry = Entry {
            caller,
            call: Call::LookAt { k },
        };
        if let Some(refusal) = self.missing(k) {
            return Ok(Looked {
                reply: self.refuse(entry, refusal),
                snapshot: None,
            });
        }
        let Ok(found) = Arc::try_clone(&self.kept[(k - self.oldest) as usize]) else {
            return Err(CallFault::NoMemory);
        };
        self.note(entry);
        Ok(Looked {
            reply: Reply::Snapshot { number: k },
            snapshot: Some(found),
        })
    }

    /// Makes the snapshot of the number `k` the oldest one, where it is kept, and lets those before it go. A snapshot that is
    /// held elsewhere stays as it is. Costs the snapshots that go, and a pointer for each of those that stay.
    pub fn retire(&mut self, caller: u16, k: u32) -> Result<Reply, CallFault>
        ensures reply { IfOk result (λ r. (o : ModelOpening) → IsBookOf o self.old → r ≡ reply o self.old.journal (SeenRetire k)) }
        ensures book { OnOk result ((o : ModelOpening) → IsBookOf o self.old → IsBookOf o self.new) }
        ensures entry { OnOk result (self.new.journal ≡ self.old.journal ++ record { caller = caller; call = SeenRetire k } ∷ []) }
        ensures spare { OnOk result (self.old.spare ≤ self.new.spare + 1) }
        ensures fault { OnErr result (IsRoomier self.old self.new) }
        ensures full { (result ≡ SeenErr JournalFull) ↔ (length self.old.journal ≡ 4194304) }
        ensures memory { 0 < self.old.spare → result ≢ SeenErr NoMemory }
    {
        self.enter()?;
        let entry = Entry {
            caller,
            call: Call::Retire { k },
        };
        if let Some(refusal) = self.missing(k) {
            return Ok(self.refuse(entry, refusal));
        }
        let newest = self.newest();
        self.forget_below(k);
        self.note(entry);
        Ok(Reply::Kept { oldest: k, newest })
    }

    /// Puts the kept snapshots from the merged number on onto the merged base, where a snapshot of that number is kept and
    /// its own base is older. No row of any snapshot changes, and one that is held elsewhere stays as it is. Costs what
    /// the checkpoints above the merged number cost, and a pointer for each kept snapshot.
    pub fn install<L: Ledger>(
        &mut self,
        caller: u16,
        merged: &Arc<Merged, Global>,
        pages: &mut Steps<L>,
    ) -> Result<Reply, CallFault>
        requires { self.old.oldest ≤ (arc_value merged.now).number → (arc_value merged.now).number ≤ newest_number self.old → (arc_value merged.now).rows ≡ (snap_at self.old (arc_value merged.now).number).rows }
        ensures reply { IfOk result (λ r. (o : ModelOpening) → IsBookOf o self.old → r ≡ reply o self.old.journal (SeenInstall (arc_value merged.now).number)) }
        ensures book { OnOk result ((o : ModelOpening) → IsBookOf o self.old → IsBookOf o self.new) }
        ensures entry { OnOk result (self.new.journal ≡ self.old.journal ++ record { caller = caller; call = SeenInstall (arc_value merged.now).number } ∷ []) }
        ensures spare { OnOk result (self.old.spare ≤ self.new.spare + 1) }
        ensures fault { OnErr result (IsRoomier self.old self.new) }
        ensures full { (result ≡ SeenErr JournalFull) ↔ (length self.old.journal ≡ 4194304) }
    {
        self.enter()?;
        let onto: &Merged = merged;
        let k = onto.number();
        let entry = Entry {
            caller,
            call: Call::Install { k },
        };
        if let Some(refusal) = self.missing(k) {
            return Ok(self.refuse(entry, refusal));
        }
        let Ok(()) = self.put_onto(merged, pages) else {
            return Err(CallFault::NoMemory);
        };
        self.note(entry);
        Ok(Reply::Snapshot { number: k })
    }

    /// The entries of the calls so far, oldest first.
    pub fn journal(&self) -> &[Entry]
        ensures is { result.now ≡ self.now.journal }
        ensures limit { length result.now ≤ 4194304 }
    {
        &self.journal
    }

    /// The kept snapshots, oldest first.
    pub fn kept(&self) -> &[Arc<Snapshot, Global>]
        ensures { map arc_value result.now ≡ self.now.kept }
    {
        &self.kept
    }

    /// The oldest number that is kept.
    pub fn oldest(&self) -> u32
        ensures { result ≡ self.now.oldest }
    {
        self.oldest
    }

    /// The newest number.
    pub fn newest(&self) -> u32
        ensures { result ≡ newest_number self.now }
    {
        self.oldest + (self.kept.len() - 1) as u32
    }

    /// The floor of the newest snapshot: the number of its base.
    pub fn floor(&self) -> u32
        ensures { result ≡ floor_of (last_snap self.now) }
    {
        self.kept[self.kept.len() - 1].floor()
    }

    // Before a call: there is room for its entry and for a write.
    fn enter(&mut self) -> Result<(), CallFault>
        ensures same { IsRoomier self.old self.new }
        ensures room { OnOk result (0 < self.new.spare) }
        ensures calls { OnOk result (length self.new.journal < 4194304) }
        ensures full { (result ≡ SeenErr JournalFull) ↔ (length self.old.journal ≡ 4194304) }
        ensures memory { 0 < self.old.spare → result ≢ SeenErr NoMemory }
    {
        if self.journal.len() >= MAX_JOURNAL as usize {
            return Err(CallFault::JournalFull);
        }
        if self.spare() == 0 && self.reserve(1).is_err() {
            return Err(CallFault::NoMemory);
        }
        Ok(())
    }

    // What a write is answered.
    #[tactic(auto, unfolding(lama_model::specs::Journal::reply_at, lama_model::specs::Journal::reply_to_write))]
    fn answer(&self, w: Write) -> Reply
        ensures { result ≡ answers self.now (SeenWrite w) }
    {
        let count = self.count;
        match w {
            Write::Vertices(n) => {
                if n > MAX_VERTICES - count {
                    Reply::Refused(Refusal::FullVertices)
                } else {
                    Reply::Count { count: count + n }
                }
            }
            Write::Add(u, v, _) => with_ends(count, u, v, edge_room(self.added)),
            Write::Remove(u, v) => with_ends(count, u, v, Reply::Accepted),
            Write::Weigh(u, v, _) => with_ends(count, u, v, Reply::Accepted),
        }
    }

    // Answers a write and does it, with room for it and for its entry.
    fn take(&mut self, entry: Entry, w: Write) -> Reply
        requires call { entry.call ≡ SeenWrite w }
        requires room { 0 < self.old.spare }
        requires calls { length self.old.journal < 4194304 }
        ensures reply { result ≡ answers self.old (SeenWrite w) }
        ensures book { (o : ModelOpening) → IsBookOf o self.old → IsBookOf o self.new }
        ensures entry { self.new.journal ≡ self.old.journal ++ entry ∷ [] }
        ensures spare { self.old.spare ≤ self.new.spare + 1 }
    {
        let reply = self.answer(w);
        if let Reply::Refused(_) = reply {
            self.note(entry);
        } else {
            self.accept(entry, w);
        }
        reply
    }

    // Puts an entry at the end of the journal.
    fn note(&mut self, entry: Entry)
        requires room { 0 < self.old.spare }
        requires calls { length self.old.journal < 4194304 }
        ensures { HasEntry self.old self.new entry }
    {
        self.journal.push_reserved(entry);
    }

    // Puts an entry of a call that is refused at the end of the journal.
    fn refuse(&mut self, entry: Entry, refusal: Refusal) -> Reply
        requires room { 0 < self.old.spare }
        requires calls { length self.old.journal < 4194304 }
        ensures entry { HasEntry self.old self.new entry }
        ensures reply { result ≡ SeenRefused refusal }
    {
        self.note(entry);
        Reply::Refused(refusal)
    }

    // Puts a write that is accepted to the pending ones, and its entry at the end of the journal.
    fn accept(&mut self, entry: Entry, w: Write)
        requires room { 0 < self.old.spare }
        requires calls { length self.old.journal < 4194304 }
        requires accepted { is_accepted (answers self.old (SeenWrite w)) ≡ true }
        ensures { HasWrite self.old self.new w entry }
    {
        self.count += more_vertices(w);
        self.added += more_edges(w);
        self.delta.push(w);
        self.journal.push_reserved(entry);
    }

    // The refusal where no snapshot of the number is kept.
    fn missing(&self, k: u32) -> Option<Refusal>
        ensures { MatchOption result ((self.now.oldest ≤ k) × (k ≤ newest_number self.now)) (λ r.
            (r ≡ NoSnapshot k self.now.oldest (newest_number self.now)) × ((k < self.now.oldest) ⊎ (newest_number self.now < k))) }
    {
        let newest = self.newest();
        if k < self.oldest || newest < k {
            return Some(Refusal::NoSnapshot {
                asked: k,
                oldest: self.oldest,
                newest,
            });
        }
        None
    }

    // Puts the kept snapshots onto the merged base.
    fn put_onto<L: Ledger>(
        &mut self,
        merged: &Arc<Merged, Global>,
        pages: &mut Steps<L>,
    ) -> Result<(), AllocError>
        requires low { self.old.oldest ≤ (arc_value merged.now).number }
        requires high { (arc_value merged.now).number ≤ newest_number self.old }
        requires rows { (arc_value merged.now).rows ≡ (snap_at self.old (arc_value merged.now).number).rows }
        ensures onto { OnOk result (IsOnto self.old self.new (arc_value merged.now)) }
        ensures err { OnErr result (self.new ≡ self.old) }
    {
        self.kept = rebase(self.alloc, &self.kept, merged, pages)?;
        Ok(())
    }

    // Lets the snapshots before that of the number go.
    fn forget_below(&mut self, k: u32)
        requires low { self.old.oldest ≤ k }
        requires high { k ≤ newest_number self.old }
        ensures { IsForgotten self.old self.new k }
    {
        let gone = (k - self.oldest) as usize;
        let stay = self.kept.len() - gone;
        self.kept.rotate_left(gone);
        self.kept.truncate(stay);
        self.oldest = k;
    }

    // The snapshot after the pending writes.
    fn next_snapshot<L: Ledger>(&self, pages: &mut Steps<L>) -> Result<Snapshot, AllocError>
        requires { newest_number self.now < 100000000 }
        ensures next { IfOk result (IsNext self.now) }
        ensures made { pages.new ≤ pages.old + checkpoint_pages (next_change self.now) }
    {
        let last: &Snapshot = &self.kept[self.kept.len() - 1];
        let number = self.newest() + 1;
        let change = self.delta.change(self.alloc, last, number, self.count)?;
        let next = last.apply(self.alloc, Arc::new(self.alloc, change)?, pages)?;
        Ok(next)
    }

    // Keeps the snapshot after the pending writes, and lets those go.
    fn keep_next<L: Ledger>(&mut self, pages: &mut Steps<L>) -> Result<(), AllocError>
        requires number { newest_number self.old < 100000000 }
        requires kept { length self.old.kept < 4096 }
        ensures next { OnOk result (HasNext self.old self.new) }
        ensures err { OnErr result (self.new ≡ self.old) }
        ensures made { pages.new ≤ pages.old + checkpoint_pages (next_change self.old) }
    {
        let next = self.next_snapshot(pages)?;
        let next = Arc::new(self.alloc, next)?;
        self.kept.push(next)?;
        self.delta.clear();
        Ok(())
    }
}

// Refused where so many edges were added that no more may be.
fn edge_room(added: u32) -> Reply
    ensures { result ≡ (if nat_le 33554432 added then SeenRefused FullEdges else Accepted) }
{
    if added >= MAX_EDGES {
        return Reply::Refused(Refusal::FullEdges);
    }
    Reply::Accepted
}

// Refused where a vertex is not below the count, `u` first.
fn with_ends(count: u32, u: u32, v: u32, reply: Reply) -> Reply
    ensures { (s : Standing) → s.graph.count ≡ count → result ≡ with_ends s u v reply }
{
    if u >= count {
        return Reply::Refused(Refusal::UnknownVertex { vertex: u, count });
    }
    if v >= count {
        return Reply::Refused(Refusal::UnknownVertex { vertex: v, count });
    }
    reply
}

// How many vertices a write adds.
fn more_vertices(w: Write) -> u32
    ensures { (count : ℕ) → (effect w (record { count = count; edges = [] })).count ≡ count + result }
{
    match w {
        Write::Vertices(n) => n,
        _ => 0,
    }
}

// How many edges a write adds.
fn more_edges(w: Write) -> u32
    ensures { result ≡ edges_added w }
{
    match w {
        Write::Add(_, _, _) => 1,
        _ => 0,
    }
}
