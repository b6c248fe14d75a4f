//! A parser of scripts, line by line.

ghost use Rattle.std.specs.Prelude.{◌≡◌, ◌≢◌, ◌≤◌, ℕ, List, Err};
ghost use Rattle.lama_model.specs.Script.{script_from};
ghost use Rattle.lama_script.specs.Parsing.{start, line_answer, after_answer, finish_answer, parsed};

use crate::grammar::read_line;
use crate::item::{Item, ScriptFault};
use lama_base::limits::MAX_LINES;
use std::marker::Model;

/// Reads a script one line at a time, and stops at the first fault.
///
/// A contract sees how many lines it took and how the script ends as far as it was read.
#[derive(Drop)]
pub struct Parser {
    taken: u32,
    fault: Option<ScriptFault>,
}

impl Model for Parser {
    ghost use Rattle.std.specs.Prelude.{◌≡◌, ◌≢◌, ◌≤◌};
    ghost use Rattle.lama_script.specs.Parsing.{Parsing};
    ghost use Rattle.lama_script.specs.Ending.{end_of, IsKept};

    ghost Value = { Parsing };

    ghost view = { λ p. record { taken = p.taken; end = end_of p.fault } };

    ghost invariant = { λ p. IsKept p.fault × (p.taken ≤ 2097152) };
}

impl Parser {
    /// A parser of a script that may have blocks.
    pub fn new() -> Parser
        ensures { result ≡ start }
    {
        Parser {
            taken: 0,
            fault: None,
        }
    }

    /// A parser for which every line that begins a block is a bad line.
    pub fn plain() -> Parser
        ensures { result ≡ start }
    {
        Parser {
            taken: 0,
            fault: None,
        }
    }

    /// How many lines were taken: those that were given without a fault.
    pub fn taken(&self) -> u32
        ensures count { result ≡ self.now.taken }
        ensures within { result ≤ 2097152 }
    {
        self.taken
    }

    /// Takes a line, given without its line feed, and answers the item that it ends, or None where it
    /// is empty or a comment. A fault is given again at every further call. Linear in the line.
    pub fn line(&mut self, bytes: &[u8]) -> Result<Option<Item>, ScriptFault>
        ensures answer { result ≢ Err ScriptFault.NoMemory → result ≡ line_answer self.old bytes.now }
        ensures after { self.new ≡ after_answer self.old result }
    {
        if let Some(fault) = self.fault {
            return Err(fault);
        }
        let answer = if self.taken < MAX_LINES {
            read_line(self.taken + 1, bytes)
        } else {
            Err(ScriptFault::TooLong)
        };
        match answer {
            Ok(_) => self.taken += 1,
            Err(fault) => self.fault = Some(fault),
        }
        answer
    }

    /// Says at the end of the script whether it was read without a fault, and gives the fault again
    /// where there was one. It never answers [`ScriptFault::NoMemory`].
    pub fn finish(&self) -> Result<(), ScriptFault>
        ensures { result ≡ finish_answer self.now.end }
    {
        match self.fault {
            None => Ok(()),
            Some(fault) => Err(fault),
        }
    }
}

/// The answers over a script's lines, and the end that stands after them, are the script that the lines spell.
pub fn parses_scripts()
    ensures { (lines : List (List ℕ)) → parsed start lines ≡ script_from 1 lines }
{}
