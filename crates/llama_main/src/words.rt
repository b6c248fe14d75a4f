//! The words of the command line.

ghost use Rattle.std.specs.Prelude.{◌≡◌, IfSome};
ghost use Rattle.llama_main.specs.Words as seen;
ghost use Rattle.llama_main.specs.Words.{bytes_of, IsTeam};

use lama_base::limits::MAX_WORKERS;
use lama_script::number;

/// How many workers the words ask for, or None where they are not in the grammar: no words at all, which ask for one, or
/// `--workers N` with N from 1 to 16.
#[tactic(auto, unfolding(crate::specs::Words::workers_of))]
pub fn workers_of(words: &[String]) -> Option<u32>
    ensures asked { result ≡ seen.workers_of (bytes_of words.now) }
    ensures team { IfSome result IsTeam }
{
    if words.is_empty() {
        return Some(1);
    }
    if words.len() != 2 || words[0].as_bytes() != b"--workers".as_slice() {
        return None;
    }
    in_range(number(words[1].as_bytes()))
}

/// The number, where it is one of workers.
fn in_range(number: Option<u32>) -> Option<u32>
    ensures is { result ≡ seen.in_range number }
    ensures team { IfSome result IsTeam }
{
    let number = number?;
    if number < 1 || number > MAX_WORKERS {
        return None;
    }
    Some(number)
}
