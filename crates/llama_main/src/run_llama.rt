//! The top calls: a script from its bytes to the printed bytes, with the promise about them.

ghost use Rattle.std.specs.Prelude.{◌≡◌, [], IfSome};
ghost use Rattle.lama_base.specs.Faults.{Rose};
ghost use Rattle.lama_model.specs.Lines.{usage_line};
ghost use Rattle.llama_main.specs.Streams.{IsFront, Appends, HasEnded};
ghost use Rattle.llama_main.specs.Ending.{end_of, IsCut, IsOutside, Exchanges, HasBook, IsText, IsSettled};
ghost use Rattle.llama_main.specs.Run.{Ran};
ghost use Rattle.llama_main.specs.Words.{AreInGrammar, text_under, AreRefused};

use crate::run::{Ended, refuse_words, run_script};
use crate::status::{RunEnd, Status};
use crate::team::Team;
use crate::words::workers_of;
use lama_base::{Gate, Sink, Source};
use lama_outside::NoGate;
use lama_pages::Steps;
use std::alloc::Global;
use std::sync::ledger::Ledger;
use std::thread::Threads;

/// Runs a script as the words say, and always returns.
///
/// The words are those after the program's name: none, or `--workers N` with N from 1 to 16, the number of threads among
/// which the work of a command like `bfs` or `labels` is shared. What is written does not depend on it. The script is read
/// from the source in large pieces, and its answers are written to the sink before each read, so that a person at a
/// terminal sees each answer before typing on. Beside the commands that read a whole graph, time and memory are linear in
/// the script and in what it prints.
pub fn run_lines<R: Threads + Sync, S: Source, K: Sink, L: Ledger>(
    rt: &R,
    alloc: Global,
    words: &[String],
    source: &mut S,
    sink: &mut K,
    pages: &mut Steps<L>,
) -> RunEnd
    // Words outside the grammar: nothing is read, and the line of usage is written.
    ensures words_outside { (AreInGrammar words.now → ⊥) → IsOutside result.status × (source.new ≡ source.old) }
    ensures usage { result.status ≡ Status.Usage → (AreInGrammar words.now → ⊥) × Appends (K.written sink.old) (K.written sink.new) usage_line }

    // Where the status names the script's end, what was written is the text of what was read, which ends so.
    ensures text { IfSome (end_of result.status) (λ end. Exchanges (S.left source.old) (S.left source.new) (K.written sink.old) (K.written sink.new) (λ given taken. IsText given taken end)) }
    // Whatever might follow what was read gives the same text, unless the source was read to its end.
    ensures settled { IfSome (end_of result.status) (λ end. Exchanges (S.left source.old) (S.left source.new) (K.written sink.old) (K.written sink.new) (λ given taken. IsSettled (S.left source.old) (S.left source.new) given)) }
    ensures end_of_source { result.status ≡ Status.Done → HasEnded (S.left source.old) (S.left source.new) }
    // The book stands for the calls of what was read.
    ensures book { HasBook (S.left source.old) (S.left source.new) (K.written sink.old) (K.written sink.new) result.status result.book }
    ensures orders { result.orders.items ≡ [] }

    // A fault or want of memory cuts the text short.
    ensures read_fault { result.status ≡ Status.ReadFault → Rose (S.faults source.old) (S.faults source.new) }
    ensures write_fault { result.status ≡ Status.WriteFault → Rose (K.faults sink.old) (K.faults sink.new) }
    ensures cut_short { IsCut result.status → Exchanges (S.left source.old) (S.left source.new) (K.written sink.old) (K.written sink.new) (λ given taken. IsFront taken (text_under words.now given)) }
{
    let Ended { status, book } = run_words(rt, alloc, words, source, sink, &NoGate, pages);
    RunEnd {
        status,
        book,
        orders: Vec::new(alloc),
    }
}

/// Runs a script as the words say. What `main` calls.
///
/// It does what [`run_lines`] does, and each piece of work that is shared among threads reaches point 4 of the gate first.
pub fn run_llama<R: Threads + Sync, S: Source, K: Sink, G: Gate + Sync, L: Ledger>(
    rt: &R,
    alloc: Global,
    words: &[String],
    source: &mut S,
    sink: &mut K,
    gate: &G,
    pages: &mut Steps<L>,
) -> RunEnd
    // Words outside the grammar: nothing is read, and the line of usage is written.
    ensures words_outside { (AreInGrammar words.now → ⊥) → IsOutside result.status × (source.new ≡ source.old) }
    ensures usage { result.status ≡ Status.Usage → (AreInGrammar words.now → ⊥) × Appends (K.written sink.old) (K.written sink.new) usage_line }

    // Where the status names the script's end, what was written is the text of what was read, which ends so.
    ensures text { IfSome (end_of result.status) (λ end. Exchanges (S.left source.old) (S.left source.new) (K.written sink.old) (K.written sink.new) (λ given taken. IsText given taken end)) }
    // Whatever might follow what was read gives the same text, unless the source was read to its end.
    ensures settled { IfSome (end_of result.status) (λ end. Exchanges (S.left source.old) (S.left source.new) (K.written sink.old) (K.written sink.new) (λ given taken. IsSettled (S.left source.old) (S.left source.new) given)) }
    ensures end_of_source { result.status ≡ Status.Done → HasEnded (S.left source.old) (S.left source.new) }
    // The book stands for the calls of what was read.
    ensures book { HasBook (S.left source.old) (S.left source.new) (K.written sink.old) (K.written sink.new) result.status result.book }
    ensures orders { result.orders.items ≡ [] }

    // A fault or want of memory cuts the text short.
    ensures read_fault { result.status ≡ Status.ReadFault → Rose (S.faults source.old) (S.faults source.new) }
    ensures write_fault { result.status ≡ Status.WriteFault → Rose (K.faults sink.old) (K.faults sink.new) }
    ensures cut_short { IsCut result.status → Exchanges (S.left source.old) (S.left source.new) (K.written sink.old) (K.written sink.new) (λ given taken. IsFront taken (text_under words.now given)) }
{
    let Ended { status, book } = run_words(rt, alloc, words, source, sink, gate, pages);
    RunEnd {
        status,
        book,
        orders: Vec::new(alloc),
    }
}

/// Runs the script, or refuses the words.
fn run_words<R: Threads + Sync, S: Source, K: Sink, G: Gate + Sync, L: Ledger>(
    rt: &R,
    alloc: Global,
    words: &[String],
    source: &mut S,
    sink: &mut K,
    gate: &G,
    pages: &mut Steps<L>,
) -> Ended
    ensures inside { AreInGrammar words.now → Ran (S.left source.old) (S.left source.new) (K.written sink.old) (K.written sink.new) result.status }
    ensures outside { (AreInGrammar words.now → ⊥) → AreRefused (K.written sink.old) (K.written sink.new) result.status × (source.new ≡ source.old) }
    ensures book { HasBook (S.left source.old) (S.left source.new) (K.written sink.old) (K.written sink.new) result.status result.book }
    ensures read_fault { result.status ≡ Status.ReadFault → Rose (S.faults source.old) (S.faults source.new) }
    ensures write_fault { result.status ≡ Status.WriteFault → Rose (K.faults sink.old) (K.faults sink.new) }
{
    let Some(workers) = workers_of(words) else {
        return Ended {
            status: refuse_words(alloc, sink),
            book: None,
        };
    };
    let team = Team {
        rt,
        alloc,
        gate,
        workers,
    };
    run_script(&team, source, sink, pages)
}
