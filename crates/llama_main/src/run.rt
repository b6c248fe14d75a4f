//! A run of a script, from its bytes to the printed bytes.

ghost use Rattle.std.specs.Prelude.{◌≡◌, ◌<◌, ◌≤◌, ◌^◌, ◌⊎◌, [], ◌++◌, ℕ, List, OnOk, OnErr, Err, None, IsSome, MatchOption, length};
ghost use Rattle.lama_base.specs.Faults.{Rose};
ghost use Rattle.lama_model.specs.Lines.{usage_line};
ghost use Rattle.llama_main.specs.Streams.{IsFront, Appends};
ghost use Rattle.llama_main.specs.Ending.{last_text, end_of, HasBook};
ghost use Rattle.lama_model.specs.Opening.{empty_opening};
ghost use Rattle.lama_book.specs.Relation.{IsBookOf};
ghost use Rattle.llama_main.specs.Run.{HasRead, status_of, Ran};
ghost use Rattle.llama_main.specs.Session.{IsReady};
ghost use Rattle.llama_main.specs.Words.{IsTeam};

use crate::session::Session;
use crate::status::Status;
use crate::stop::Stop;
use crate::team::Team;
use crate::writing::flush;
use lama_base::{Gate, Sink, Source};
use lama_book::Book;
use lama_pages::Steps;
use lama_script::print_numbered;
use std::alloc::{AllocError, Global};
use std::sync::ledger::Ledger;
use std::thread::Threads;

/// So many bytes are read at a time.
const PIECE: usize = 65_536;

/// Reads the script to its end or to where it stops. Answers are written before each read.
fn read_pieces<R: Threads + Sync, G: Gate + Sync, S: Source, K: Sink, L: Ledger>(
    team: &Team<R, G>,
    source: &mut S,
    sink: &mut K,
    session: &mut Session,
    buf: &mut [u8],
    pages: &mut Steps<L>,
) -> Result<(), Stop>
    requires team { IsTeam team.now.workers }
    requires ready { IsReady session.old }
    requires room { 0 < length buf.old }
    ensures has_read { HasRead (S.left source.old) (S.left source.new) (K.written sink.old) (K.written sink.new) session.old session.new.interpreter.out.items session.new.interpreter.store.journal result }
    ensures read_cause { result ≡ Err Stop.ReadFault → Rose (S.faults source.old) (S.faults source.new) }
    ensures write_cause { result ≡ Err Stop.WriteFault → Rose (K.faults sink.old) (K.faults sink.new) }
    ensures read_steady { S.faults source.old ≤ S.faults source.new }
    ensures write_steady { K.faults sink.old ≤ K.faults sink.new }
    ensures read_bounded { S.faults source.old < 2 ^ 64 → S.faults source.new < 2 ^ 64 }
    ensures write_bounded { K.faults sink.old < 2 ^ 64 → K.faults sink.new < 2 ^ 64 }
{
    'pieces: loop {
        match session.write_all(sink) {
            Ok(()) => {}
            Err(stop) => return Err(stop),
        }
        let n = match source.read(buf) {
            Ok(n) => n,
            Err(_) => return Err(Stop::ReadFault),
        };
        if n == 0 {
            return session.take_last(team, pages);
        }
        match session.take_piece(team, sink, &buf[..n], pages) {
            Ok(()) => {}
            Err(stop) => return Err(stop),
        }
    }
}

/// Appends the last line of a status, after so many calls.
#[tactic(auto, unfolding(lama_model::specs::Lines::last_line, lama_model::specs::Lines::usage_line))]
fn print_last(out: &mut Vec<u8>, calls: u32, status: Status) -> Result<(), AllocError>
    ensures ok { OnOk result (out.new.items ≡ out.old.items ++ last_text calls status) }
    ensures err { OnErr result (out.new.items ≡ out.old.items) }
{
    match status {
        Status::Done => print_numbered(out, b"end ", u64::from(calls)),
        Status::BadLine { line } => print_numbered(out, b"bad line ", u64::from(line)),
        Status::TooManyLines => out.extend_from_slice(b"too many lines\n"),
        Status::Usage => out.extend_from_slice(b"usage\n"),
        Status::ReadFault | Status::WriteFault | Status::NoMemory => Ok(()),
    }
}

/// Writes what was gathered and the last line of a status. Says how the run ends: so, or by a fault of the sink.
fn conclude<K: Sink>(sink: &mut K, out: &mut Vec<u8>, calls: u32, status: Status) -> Status
    ensures ends { ((result ≡ status) × Appends (K.written sink.old) (K.written sink.new) (out.old.items ++ last_text calls status))
        ⊎ ((said : List ℕ) × Appends (K.written sink.old) (K.written sink.new) said × IsFront said (out.old.items ++ last_text calls status) × ((result ≡ Status.WriteFault) ⊎ (result ≡ Status.NoMemory))) }
    ensures cause { result ≡ Status.WriteFault → (result ≡ status) ⊎ Rose (K.faults sink.old) (K.faults sink.new) }
    ensures steady { K.faults sink.old ≤ K.faults sink.new }
    ensures bounded { K.faults sink.old < 2 ^ 64 → K.faults sink.new < 2 ^ 64 }
{
    let printed = print_last(out, calls, status);
    match flush(sink, out) {
        Ok(()) => match printed {
            Ok(()) => status,
            Err(_) => Status::NoMemory,
        },
        Err(Stop::WriteFault) => Status::WriteFault,
        Err(_) => Status::NoMemory,
    }
}

/// Reads the script of the source to its end or to where it stops.
fn read_script<R: Threads + Sync, G: Gate + Sync, S: Source, K: Sink, L: Ledger>(
    team: &Team<R, G>,
    source: &mut S,
    sink: &mut K,
    session: &mut Session,
    pages: &mut Steps<L>,
) -> Result<(), Stop>
    requires team { IsTeam team.now.workers }
    requires ready { IsReady session.old }
    requires none { session.old.interpreter.out.items ≡ [] }
    ensures has_read { HasRead (S.left source.old) (S.left source.new) (K.written sink.old) (K.written sink.new) session.old session.new.interpreter.out.items session.new.interpreter.store.journal result }
    ensures read_cause { result ≡ Err Stop.ReadFault → Rose (S.faults source.old) (S.faults source.new) }
    ensures write_cause { result ≡ Err Stop.WriteFault → Rose (K.faults sink.old) (K.faults sink.new) }
    ensures write_steady { K.faults sink.old ≤ K.faults sink.new }
    ensures write_bounded { K.faults sink.old < 2 ^ 64 → K.faults sink.new < 2 ^ 64 }
{
    match vec![in team.alloc; 0u8; PIECE] {
        Ok(mut piece) => read_pieces(team, source, sink, session, &mut piece, pages),
        Err(_) => Err(Stop::NoMemory),
    }
}

/// How a run of a script ended, with its book.
#[derive(Drop)]
pub struct Ended {
    pub status: Status,
    pub book: Option<Book>,
}

/// Runs the script of the source.
pub fn run_script<R: Threads + Sync, G: Gate + Sync, S: Source, K: Sink, L: Ledger>(
    team: &Team<R, G>,
    source: &mut S,
    sink: &mut K,
    pages: &mut Steps<L>,
) -> Ended
    requires { IsTeam team.now.workers }
    ensures ran { Ran (S.left source.old) (S.left source.new) (K.written sink.old) (K.written sink.new) result.status }
    ensures book { HasBook (S.left source.old) (S.left source.new) (K.written sink.old) (K.written sink.new) result.status result.book }
    ensures read_cause { result.status ≡ Status.ReadFault → Rose (S.faults source.old) (S.faults source.new) }
    ensures write_cause { result.status ≡ Status.WriteFault → Rose (K.faults sink.old) (K.faults sink.new) }
{
    let Ok(mut session) = Session::new(team.alloc, pages) else {
        return Ended {
            status: Status::NoMemory,
            book: None,
        };
    };
    let answer = read_script(team, source, sink, &mut session, pages);
    let calls = session.interpreter.calls();
    let status = status_after(answer);
    let status = conclude(sink, &mut session.interpreter.out, calls, status);
    Ended {
        status,
        book: book_after(session, status),
    }
}

/// The book of a session that ended so, where the status names the script's end.
fn book_after(session: Session, status: Status) -> Option<Book>
    ensures { MatchOption result (end_of status ≡ None) (λ b. IsSome (end_of status) × (b.journal ≡ session.interpreter.store.journal) × IsBookOf empty_opening b) }
{
    if status.names_end() {
        Some(session.into_book())
    } else {
        None
    }
}

/// Says that the words are not in the grammar.
pub fn refuse_words<K: Sink>(alloc: Global, sink: &mut K) -> Status
    ensures ends { ((result ≡ Status.Usage) × Appends (K.written sink.old) (K.written sink.new) usage_line)
        ⊎ ((said : List ℕ) × Appends (K.written sink.old) (K.written sink.new) said × IsFront said usage_line × ((result ≡ Status.WriteFault) ⊎ (result ≡ Status.NoMemory))) }
    ensures cause { result ≡ Status.WriteFault → Rose (K.faults sink.old) (K.faults sink.new) }
{
    conclude(sink, &mut Vec::new(alloc), 0, Status::Usage)
}

/// The status of a run that answered so.
fn status_after(answer: Result<(), Stop>) -> Status
    ensures { result ≡ status_of answer }
{
    match answer {
        Ok(()) => Status::Done,
        Err(Stop::BadLine { line }) => Status::BadLine { line },
        Err(Stop::TooManyLines) => Status::TooManyLines,
        Err(Stop::ReadFault) => Status::ReadFault,
        Err(Stop::WriteFault) => Status::WriteFault,
        Err(Stop::NoMemory) => Status::NoMemory,
    }
}
