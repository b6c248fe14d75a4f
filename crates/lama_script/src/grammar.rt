//! The grammar of a script's lines: words, numbers and commands.

ghost use Rattle.std.specs.Prelude.{◌≡◌, ◌<◌, ◌^◌, [], ◌∷◌, ⊤, not, true, MatchOption, None, Some, IsTrue, ◌↔◌};
ghost use Rattle.std.specs.List.{position};
ghost use Rattle.lama_model.specs.Script.{words, number, vertices_command, add_command, del_command, weigh_command, checkpoint_command, merge_command, retire_command, row_read, edges_read, degrees_read, sum_of, bfs_read, labels_read, rank_read, dist_read, as_of_read, read_of, behind_at, reading_of, command_of, meaning, without_return};
ghost use Rattle.lama_model.specs.Script as grammar;
ghost use Rattle.lama_script.specs.Numbers.{IsFirstNumber, IsLeading};
ghost use Rattle.lama_script.specs.Parsing.{answer_to};

use crate::item::{Item, ScriptFault};
use lama_base::limits::{MAX_LINE_BYTES, MAX_ROUNDS};
use lama_model::{Command, Read, Write};

/// What a line is answered that is given without its line feed and has that number.
#[tactic(auto, unfolding(lama_model::specs::Script::meaning))]
pub fn read_line(line_number: u32, line: &[u8]) -> Result<Option<Item>, ScriptFault>
    ensures { result ≡ answer_to line_number (meaning line.now) }
{
    if line.len() > MAX_LINE_BYTES {
        return Err(ScriptFault::BadLine { line: line_number });
    }
    let Some((word, args)) = first_word(before_return(line)) else {
        return Ok(None);
    };
    if is_comment(word) {
        return Ok(None);
    }
    match command(word, args) {
        Some(command) => Ok(Some(Item::One(command))),
        None => Err(ScriptFault::BadLine { line: line_number }),
    }
}

/// The line without the carriage return at its end.
fn before_return(line: &[u8]) -> &[u8]
    ensures { result.now ≡ without_return line.now }
{
    if line.ends_with(b"\r") {
        &line[..line.len() - 1]
    } else {
        line
    }
}

fn is_comment(word: &[u8]) -> bool
    ensures { result ≡ grammar.is_comment word.now }
{
    matches!(word, [b'#', ..])
}

fn is_blank(byte: u8) -> bool
    ensures { result ≡ grammar.is_blank byte }
{
    byte == b' ' || byte == b'\t'
}

/// The place of the first byte that is no blank.
fn word_start(bytes: &[u8]) -> Option<usize>
    ensures { result ≡ position (λ b. not (grammar.is_blank b)) bytes.now }
{
    bytes.iter().position(|&byte| !is_blank(byte))
}

/// The place of the first blank.
fn first_blank(bytes: &[u8]) -> Option<usize>
    ensures { result ≡ position grammar.is_blank bytes.now }
{
    bytes.iter().position(|&byte| is_blank(byte))
}

/// The first word of the bytes and what stands after it, or None where they have no word.
fn first_word(bytes: &[u8]) -> Option<(&[u8], &[u8])>
    ensures { MatchOption result (words bytes.now ≡ []) (λ w. words bytes.now ≡ w.0.now ∷ words w.1.now) }
{
    let start = word_start(bytes)?;
    let bytes = &bytes[start..];
    let end = first_blank(bytes).unwrap_or(bytes.len());
    Some(bytes.split_at(end))
}

/// The value of decimal digits, or None where the word is no number: one or more digits, with a value of at most 2^32 - 1.
/// Leading zeros are allowed. Linear in the word.
pub fn number(word: &[u8]) -> Option<u32>
    ensures { result ≡ grammar.number word.now }
{
    if word.is_empty() {
        return None;
    }
    let mut value = 0u64;
    for &byte in word {
        if !byte.is_ascii_digit() {
            return None;
        }
        value = value * 10 + u64::from(byte - b'0');
        if value > u64::from(u32::MAX) {
            return None;
        }
    }
    Some(value as u32)
}

/// The number before the first blank, or before the end, and where that is. None where another byte comes first, or where
/// there is no number.
fn leading_number(text: &[u8]) -> Option<(u32, usize)>
    ensures { MatchOption result ⊤ (λ found. IsLeading text.now found.0 found.1) }
{
    let mut value = 0u64;
    let mut len = 0;
    for &next in text {
        if !next.is_ascii_digit() {
            return leading_end(next, value, len);
        }
        value = value * 10 + u64::from(next - b'0');
        if value > u64::from(u32::MAX) {
            return None;
        }
        len += 1;
    }
    some_number(value, len)
}

/// The number that so many digits spelled, where the byte behind them is a blank.
fn leading_end(byte: u8, value: u64, len: usize) -> Option<(u32, usize)>
    requires { value < 2 ^ 32 }
    ensures { MatchOption result ⊤ (λ found. (found.0 ≡ value) × (found.1 ≡ len) × (0 < len) × (grammar.is_blank byte ≡ true)) }
{
    if is_blank(byte) {
        return some_number(value, len);
    }
    None
}

/// The number that so many digits spelled, and how many they are. No digits spell none.
fn some_number(value: u64, len: usize) -> Option<(u32, usize)>
    requires { value < 2 ^ 32 }
    ensures { MatchOption result ⊤ (λ found. (found.0 ≡ value) × (found.1 ≡ len) × (0 < len)) }
{
    if len == 0 {
        return None;
    }
    Some((value as u32, len))
}

/// The number that the first word of the bytes spells, if it spells one, and what stands after it, or None where they have
/// no word. A number is read as it is looked for, so each of its bytes is read once.
fn first_number(bytes: &[u8]) -> Option<(Option<u32>, &[u8])>
    ensures { MatchOption result (words bytes.now ≡ []) (λ found. IsFirstNumber bytes.now found.0 found.1.now) }
{
    let start = word_start(bytes)?;
    let text = &bytes[start..];
    if let Some((value, end)) = leading_number(text) {
        return Some((Some(value), &text[end..]));
    }
    let end = first_blank(text).unwrap_or(text.len());
    let (word, rest) = text.split_at(end);
    Some((number(word), rest))
}

/// The command that the word and the words after it spell.
#[tactic(auto, unfolding(lama_model::specs::Script::command_of))]
fn command(word: &[u8], args: &[u8]) -> Option<Command>
    ensures { result ≡ command_of word.now (words args.now) }
{
    if word == b"vertices".as_slice() {
        vertices(args)
    } else if word == b"add".as_slice() {
        add(args)
    } else if word == b"del".as_slice() {
        del(args)
    } else if word == b"weigh".as_slice() {
        weigh(args)
    } else if word == b"checkpoint".as_slice() {
        checkpoint(args)
    } else if word == b"merge".as_slice() {
        merge(args)
    } else if word == b"retire".as_slice() {
        retire(args)
    } else {
        reading(word, args)
    }
}

/// A reading command: of the snapshot of a number, where a word `@K` stands before it, or of the newest one.
fn reading(word: &[u8], args: &[u8]) -> Option<Command>
    ensures { result ≡ reading_of (behind_at word.now) word.now (words args.now) }
{
    let Some(digits) = behind_at(word) else {
        let what = read(word, args)?;
        return Some(Command::Read { at: None, what });
    };
    let (name, args) = first_word(args)?;
    let k = number(digits)?;
    let what = read(name, args)?;
    Some(Command::Read { at: Some(k), what })
}

/// What stands behind an at sign at the front of the word.
fn behind_at(word: &[u8]) -> Option<&[u8]>
    ensures { MatchOption result (grammar.behind_at word.now ≡ None) (λ digits. grammar.behind_at word.now ≡ Some digits.now) }
{
    if word.is_empty() || word[0] != b'@' {
        return None;
    }
    Some(&word[1..])
}

/// What is read by the word and the words after it.
#[tactic(auto, unfolding(lama_model::specs::Script::read_of))]
fn read(word: &[u8], args: &[u8]) -> Option<Read>
    ensures { result ≡ read_of word.now (words args.now) }
{
    if word == b"row".as_slice() {
        row(args)
    } else if word == b"edges".as_slice() {
        edges(args)
    } else if word == b"bfs".as_slice() {
        bfs(args)
    } else if word == b"labels".as_slice() {
        labels(args)
    } else if word == b"degrees".as_slice() {
        degrees(args)
    } else if word == b"rank".as_slice() {
        rank(args)
    } else if word == b"dist".as_slice() {
        dist(args)
    } else if word == b"asof".as_slice() {
        as_of(args)
    } else {
        None
    }
}

/// Whether the bytes have no word.
fn is_end(args: &[u8]) -> bool
    ensures { IsTrue result ↔ (words args.now ≡ []) }
{
    word_start(args).is_none()
}

fn vertices(args: &[u8]) -> Option<Command>
    ensures { result ≡ vertices_command (words args.now) }
{
    let (count, rest) = first_number(args)?;
    if !is_end(rest) {
        return None;
    }
    Some(Command::Write(Write::Vertices(count?)))
}

fn add(args: &[u8]) -> Option<Command>
    ensures { result ≡ add_command (words args.now) }
{
    let (source, args) = first_number(args)?;
    let (target, args) = first_number(args)?;
    let weight = match first_number(args) {
        Some((weight, args)) if is_end(args) => weight?,
        Some(_) => return None,
        None => 1,
    };
    Some(Command::Write(Write::Add(source?, target?, u64::from(weight))))
}

fn del(args: &[u8]) -> Option<Command>
    ensures { result ≡ del_command (words args.now) }
{
    let (source, args) = first_number(args)?;
    let (target, rest) = first_number(args)?;
    if !is_end(rest) {
        return None;
    }
    Some(Command::Write(Write::Remove(source?, target?)))
}

fn weigh(args: &[u8]) -> Option<Command>
    ensures { result ≡ weigh_command (words args.now) }
{
    let (source, args) = first_number(args)?;
    let (target, args) = first_number(args)?;
    let weight = match first_number(args) {
        Some((weight, args)) if is_end(args) => weight?,
        _ => return None,
    };
    Some(Command::Write(Write::Weigh(source?, target?, u64::from(weight))))
}

fn checkpoint(args: &[u8]) -> Option<Command>
    ensures { result ≡ checkpoint_command (words args.now) }
{
    is_end(args).then_some(Command::Checkpoint)
}

fn merge(args: &[u8]) -> Option<Command>
    ensures { result ≡ merge_command (words args.now) }
{
    is_end(args).then_some(Command::Merge)
}

fn retire(args: &[u8]) -> Option<Command>
    ensures { result ≡ retire_command (words args.now) }
{
    let (number, rest) = first_number(args)?;
    if !is_end(rest) {
        return None;
    }
    Some(Command::Retire { k: number? })
}

fn row(args: &[u8]) -> Option<Read>
    ensures { result ≡ row_read (words args.now) }
{
    let (vertex, rest) = first_number(args)?;
    if !is_end(rest) {
        return None;
    }
    Some(Read::Row { v: vertex? })
}

fn edges(args: &[u8]) -> Option<Read>
    ensures { result ≡ edges_read (words args.now) }
{
    is_end(args).then_some(Read::Edges)
}

/// Whether the only word is `sum`, or there is none.
fn sum(args: &[u8]) -> Option<bool>
    ensures { result ≡ sum_of (words args.now) }
{
    let Some((word, rest)) = first_word(args) else {
        return Some(false);
    };
    (word == b"sum".as_slice() && is_end(rest)).then_some(true)
}

fn bfs(args: &[u8]) -> Option<Read>
    ensures { result ≡ bfs_read (words args.now) }
{
    let (source, args) = first_number(args)?;
    let sum = sum(args)?;
    Some(Read::Bfs { s: source?, sum })
}

fn labels(args: &[u8]) -> Option<Read>
    ensures { result ≡ labels_read (words args.now) }
{
    let sum = sum(args)?;
    Some(Read::Labels { sum })
}

fn degrees(args: &[u8]) -> Option<Read>
    ensures { result ≡ degrees_read (words args.now) }
{
    is_end(args).then_some(Read::Degrees)
}

fn rank(args: &[u8]) -> Option<Read>
    ensures { result ≡ rank_read (words args.now) }
{
    let (rounds, args) = first_number(args)?;
    let sum = sum(args)?;
    let rounds = rounds?;
    (rounds <= MAX_ROUNDS).then_some(Read::Rank { rounds, sum })
}

fn dist(args: &[u8]) -> Option<Read>
    ensures { result ≡ dist_read (words args.now) }
{
    let (source, args) = first_number(args)?;
    let sum = sum(args)?;
    Some(Read::Dist { s: source?, sum })
}

fn as_of(args: &[u8]) -> Option<Read>
    ensures { result ≡ as_of_read (words args.now) }
{
    let (number, args) = first_number(args)?;
    let (vertex, rest) = first_number(args)?;
    if !is_end(rest) {
        return None;
    }
    Some(Read::AsOf {
        j: number?,
        v: vertex?,
    })
}
