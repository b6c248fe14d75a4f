//! One script's run over its bytes, in whatever pieces they come.

ghost use Rattle.std.specs.Prelude.{◌≡◌, ◌<◌, ◌≤◌, ◌^◌, [], ◌∷◌, ◌++◌, ℕ, List, IfOk, IfErr, OnOk, Err, MatchOption, length, take, slice_index};
ghost use Rattle.lama_base.specs.Faults.{Rose};
ghost use Rattle.lama_model.specs.Opening.{empty_opening};
ghost use Rattle.lama_book.specs.Relation.{IsBookOf};
ghost use Rattle.llama_main.specs.Outcome.{outcome};
ghost use Rattle.llama_main.specs.Stop.{StopsAt, IsOfScript, HasNoFeed};
ghost use Rattle.llama_main.specs.Words.{IsTeam};
ghost use Rattle.llama_main.specs.Session.{expected, IsReady, room, Wrote, Stopped};

use crate::interpreter::Interpreter;
use crate::stop::Stop;
use crate::team::Team;
use crate::writing::flush;
use lama_base::limits::{MAX_LINE_BYTES, MAX_LINES};
use lama_base::{Gate, Sink};
use lama_book::Book;
use lama_pages::Steps;
use memchr::memchr;
use std::alloc::{AllocError, Global};
use std::sync::ledger::Ledger;
use std::thread::Threads;

/// So many bytes are gathered before they are written while lines are still at hand.
const GATHERED: usize = 65_536;

/// A run between two pieces of its script.
#[derive(Drop)]
pub struct Session {
    pub interpreter: Interpreter,
    // What has come of the next line, without a line feed.
    carry: Vec<u8>,
}

/// The first line without its line feed, and what stands after it, or None where no line ends.
fn first_line(bytes: &[u8]) -> Option<(&[u8], &[u8])>
    ensures { MatchOption result (HasNoFeed bytes.now) (λ cut. HasNoFeed cut.0.now × (bytes.now ≡ cut.0.now ++ 10 ∷ cut.1.now)) }
{
    match line_end(bytes) {
        Some(end) => Some((&bytes[..end], &bytes[end + 1..])),
        None => None,
    }
}

/// Where the first line feed stands.
fn line_end(bytes: &[u8]) -> Option<usize>
    ensures { MatchOption result (HasNoFeed bytes.now) (λ end. (end < length bytes.now) × (slice_index bytes.now end ≡ 10) × HasNoFeed (take end bytes.now)) }
{
    memchr(b'\n', bytes)
}

impl Session {
    /// Before any byte came.
    pub fn new<L: Ledger>(alloc: Global, pages: &mut Steps<L>) -> Result<Session, AllocError>
        ensures start { IfOk result (λ s. (bytes : List ℕ) → outcome empty_opening bytes ≡ expected s bytes) }
        ensures ready { IfOk result (λ s. IsReady s) }
        ensures none { IfOk result (λ s. s.interpreter.out.items ≡ []) }
    {
        Ok(Session {
            interpreter: Interpreter::new(alloc, pages)?,
            carry: Vec::new(alloc),
        })
    }

    /// The book, with the calls so far.
    pub fn into_book(self) -> Book
        ensures journal { result.journal ≡ self.interpreter.store.journal }
        ensures book { IsBookOf empty_opening result }
    {
        let Session {
            interpreter,
            carry: _,
        } = self;
        let Interpreter {
            store,
            parser: _,
            out: _,
        } = interpreter;
        store.into_book()
    }

    /// Takes the line that ends with this part, given without its line feed.
    fn take_part<R: Threads + Sync, G: Gate + Sync, L: Ledger>(
        &mut self,
        team: &Team<R, G>,
        part: &[u8],
        pages: &mut Steps<L>,
    ) -> Result<(), Stop>
        requires team { IsTeam team.now.workers }
        requires ready { IsReady self.old }
        requires no_feed { HasNoFeed part.now }
        ensures ok { OnOk result ((more : List ℕ) → expected self.old (part.now ++ 10 ∷ more) ≡ expected self.new more) }
        ensures ready { OnOk result (IsReady self.new) }
        ensures room { OnOk result (room self.new < room self.old) }
        ensures err { IfErr result (λ stop. (more : List ℕ) → StopsAt stop self.new.interpreter.out.items self.new.interpreter.store.journal (expected self.old (part.now ++ 10 ∷ more))) }
        ensures cause { IfErr result IsOfScript }
    {
        if self.carry.as_slice().is_empty() {
            return self.interpreter.take_line(team, part, pages);
        }
        match self.carry.extend_from_slice(part) {
            Ok(()) => {}
            Err(_) => return Err(Stop::NoMemory),
        }
        let answer = self.interpreter.take_line(team, &self.carry, pages);
        self.carry.clear();
        answer
    }

    /// Keeps the front of a line that has not come whole.
    fn hold(&mut self, part: &[u8]) -> Result<(), Stop>
        requires ready { IsReady self.old }
        requires no_feed { HasNoFeed part.now }
        ensures ok { OnOk result ((more : List ℕ) → expected self.old (part.now ++ more) ≡ expected self.new more) }
        ensures ready { OnOk result (IsReady self.new) }
        ensures room { OnOk result (room self.new ≤ room self.old) }
        ensures less_room { OnOk result (0 < length part.now → room self.new < room self.old) }
        ensures err { IfErr result (λ stop. (more : List ℕ) → StopsAt stop self.new.interpreter.out.items self.new.interpreter.store.journal (expected self.old (part.now ++ more))) }
        ensures cause { IfErr result IsOfScript }
    {
        if part.is_empty() {
            return Ok(());
        }
        let taken = self.interpreter.taken();
        if taken >= MAX_LINES {
            return Err(Stop::TooManyLines);
        }
        if part.len() > MAX_LINE_BYTES - self.carry.len() {
            return Err(Stop::BadLine { line: taken + 1 });
        }
        match self.carry.extend_from_slice(part) {
            Ok(()) => Ok(()),
            Err(_) => Err(Stop::NoMemory),
        }
    }

    /// Takes the last line, where bytes have come of it, once no more will come.
    pub fn take_last<R: Threads + Sync, G: Gate + Sync, L: Ledger>(
        &mut self,
        team: &Team<R, G>,
        pages: &mut Steps<L>,
    ) -> Result<(), Stop>
        requires team { IsTeam team.now.workers }
        requires ready { IsReady self.old }
        ensures ok { OnOk result (expected self.old [] ≡ expected self.new []) }
        ensures none { OnOk result (self.new.carry.items ≡ []) }
        ensures err { IfErr result (λ stop. StopsAt stop self.new.interpreter.out.items self.new.interpreter.store.journal (expected self.old [])) }
        ensures cause { IfErr result IsOfScript }
    {
        if self.carry.as_slice().is_empty() {
            return Ok(());
        }
        let answer = self.interpreter.take_line(team, &self.carry, pages);
        self.carry.clear();
        answer
    }

    /// Takes the next piece of the script. Gathered answers are written as they grow.
    pub fn take_piece<R: Threads + Sync, G: Gate + Sync, K: Sink, L: Ledger>(
        &mut self,
        team: &Team<R, G>,
        sink: &mut K,
        piece: &[u8],
        pages: &mut Steps<L>,
    ) -> Result<(), Stop>
        requires team { IsTeam team.now.workers }
        requires ready { IsReady self.old }
        ensures ok { OnOk result (Wrote (K.written sink.old) (K.written sink.new) self.old self.new piece.now) }
        ensures ready { OnOk result (IsReady self.new) }
        ensures room { OnOk result (0 < length piece.now → room self.new < room self.old) }
        ensures err { IfErr result (Stopped (K.written sink.old) (K.written sink.new) self.old piece.now self.new.interpreter.out.items self.new.interpreter.store.journal) }
        ensures no_read { result ≡ Err Stop.ReadFault → ⊥ }
        ensures cause { result ≡ Err Stop.WriteFault → Rose (K.faults sink.old) (K.faults sink.new) }
        ensures steady { K.faults sink.old ≤ K.faults sink.new }
        ensures bounded { K.faults sink.old < 2 ^ 64 → K.faults sink.new < 2 ^ 64 }
    {
        let mut rest = piece;
        'lines: while let Some((line, after)) = first_line(rest) {
            match self.take_part(team, line, pages) {
                Ok(()) => {}
                Err(stop) => return Err(stop),
            }
            rest = after;
            match self.write_gathered(sink) {
                Ok(()) => {}
                Err(stop) => return Err(stop),
            }
        }
        self.hold(rest)
    }

    /// Writes what was gathered where that is much.
    fn write_gathered<K: Sink>(&mut self, sink: &mut K) -> Result<(), Stop>
        requires { IsReady self.old }
        ensures ok { OnOk result (Wrote (K.written sink.old) (K.written sink.new) self.old self.new []) }
        ensures few { OnOk result (length self.new.interpreter.out.items < 65536) }
        ensures ready { IsReady self.new }
        ensures room { room self.new ≡ room self.old }
        ensures err { IfErr result (Stopped (K.written sink.old) (K.written sink.new) self.old [] self.new.interpreter.out.items self.new.interpreter.store.journal) }
        ensures no_read { result ≡ Err Stop.ReadFault → ⊥ }
        ensures cause { result ≡ Err Stop.WriteFault → Rose (K.faults sink.old) (K.faults sink.new) }
        ensures steady { K.faults sink.old ≤ K.faults sink.new }
        ensures bounded { K.faults sink.old < 2 ^ 64 → K.faults sink.new < 2 ^ 64 }
    {
        if self.interpreter.gathered() < GATHERED {
            return Ok(());
        }
        self.write_all(sink)
    }

    /// Writes what was gathered.
    pub fn write_all<K: Sink>(&mut self, sink: &mut K) -> Result<(), Stop>
        requires { IsReady self.old }
        ensures ok { OnOk result (Wrote (K.written sink.old) (K.written sink.new) self.old self.new []) }
        ensures none { self.new.interpreter.out.items ≡ [] }
        ensures ready { IsReady self.new }
        ensures room { room self.new ≡ room self.old }
        ensures err { IfErr result (Stopped (K.written sink.old) (K.written sink.new) self.old [] self.new.interpreter.out.items self.new.interpreter.store.journal) }
        ensures no_read { result ≡ Err Stop.ReadFault → ⊥ }
        ensures cause { result ≡ Err Stop.WriteFault → Rose (K.faults sink.old) (K.faults sink.new) }
        ensures steady { K.faults sink.old ≤ K.faults sink.new }
        ensures bounded { K.faults sink.old < 2 ^ 64 → K.faults sink.new < 2 ^ 64 }
    {
        flush(sink, &mut self.interpreter.out)
    }
}
