//! `llama`: a store for changing directed graphs, run by a script from standard input.
#![tactic(auto)]

ghost use Rattle.std.specs.Prelude.{◌≡◌};

mod interpreter;
mod run;
pub mod run_llama;
mod session;
pub mod status;
mod stop;
mod store;
mod team;
#[cfg(test)]
mod tests;
mod words;
mod writing;

use lama_outside::{NoGate, StdSink, StdSource};
use lama_pages::Steps;
use run_llama::run_llama;
use status::Status;
use std::alloc::{AllocError, Global};
use std::env;
use std::io::ErrorKind;
use std::marker::Brand;
use std::mem::forget;
use std::process::ExitCode;
use std::sync::ledger::{Blank, Ledger};
use std::thread::Threads;

/// The words after the program's name. A word that is no text makes one empty word of them all, which
/// is not in the grammar.
fn command_line(rt: &HostRuntime, alloc: Global) -> Result<Vec<String>, AllocError> {
    let mut words = Vec::new(alloc);
    match env::args(rt) {
        Ok(all) => {
            for word in all.skip(1) {
                words.push(word)?;
            }
        }
        Err(fault) if fault.kind() == ErrorKind::OutOfMemory => return Err(AllocError),
        Err(_) => words.push(String::new(alloc))?,
    }
    Ok(words)
}

/// Runs the program over the standard streams, with a ledger of its own for the pages that it makes.
fn run_standard<R: AllocGlobal + Threads + Sync, L: Ledger>(
    rt: &R,
    mut source: StdSource,
    mut sink: StdSink,
    words: &[String],
    blank: Blank,
) -> Status
    requires name { blank.name ≡ L.name }
    requires parts { blank.parts ≡ L.parts }
    requires one { blank.parts ≡ 1 }
{
    let mut pages: Steps<L> = Steps::open(blank);
    let end = run_llama(
        rt,
        rt.alloc(),
        words,
        &mut source,
        &mut sink,
        &NoGate,
        &mut pages,
    );
    // The system takes the whole memory back at once, so the book is not taken apart page by page.
    forget(end.book);
    end.status
}

fn main(rt: HostRuntime) -> ExitCode {
    let status = match command_line(&rt, rt.alloc()) {
        Ok(words) => {
            let source = StdSource::new(&rt);
            let sink = StdSink::new(&rt);
            run_standard::<_, Brand>(&rt, source, sink, &words, Blank::new(1))
        }
        Err(_) => Status::NoMemory,
    };
    ExitCode::from(status.code())
}
