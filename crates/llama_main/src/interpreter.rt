//! Obeys the lines of a script, and gathers their answers.

ghost use Rattle.std.specs.Prelude.{◌≡◌, ◌+◌, ◌<◌, ◌≤◌, [], ◌∷◌, ◌++◌, ℕ, List, IfOk, IfErr, OnOk, OnErr, length};
ghost use Rattle.lama_model.specs.Opening.{empty_opening};
ghost use Rattle.lama_model.specs.Journal.{graph_of};
ghost use Rattle.lama_model.specs.Lines.{refusal_line};
ghost use Rattle.lama_model.specs.declared.answers.Refusal.TheVariants.{UnknownVertex};
ghost use Rattle.llama_main.specs.Words.{IsTeam};
ghost use Rattle.lama_model.specs.declared.commands.Read.TheVariants.{Row, Edges, Degrees, Bfs, Labels, Rank, Dist, AsOf};
ghost use Rattle.llama_main.specs.Store.{held_by, AreOfGraph, IsTold};
ghost use Rattle.llama_main.specs.Expected.{held_after, told_at, printed, expected_from};
ghost use Rattle.llama_main.specs.Stop.{StopsAt, IsOfScript};
ghost use Rattle.llama_main.specs.Interpreter.{expected_of, IsRunning, command_in};

use crate::stop::Stop;
use crate::store::Store;
use crate::team::Team;
use lama_base::Gate;
use lama_bfs::levels;
use lama_book::Looked;
use lama_label::labels;
use lama_model::{Refusal, Reply, Rows};
use lama_pages::Steps;
use lama_paths::distances;
use lama_rank::{degrees, rank};
use lama_script::{
    Command, Item, Parser, Read, ScriptFault, print_asof, print_degrees, print_dist, print_edges,
    print_labels, print_levels, print_rank, print_reply, print_row,
};
use lama_snapshot::{Snapshot, Targets};
use std::alloc::{AllocError, Global};
use std::sync::ledger::Ledger;
use std::thread::Threads;

/// Takes the lines of one script, one after another.
#[derive(Drop)]
pub struct Interpreter {
    pub store: Store,
    pub parser: Parser,
    // The answers that are to be written.
    pub out: Vec<u8>,
}

impl Interpreter {
    /// Before the first line.
    pub fn new<L: Ledger>(alloc: Global, pages: &mut Steps<L>) -> Result<Interpreter, AllocError>
        ensures start { IfOk result (λ i. (rest : List (List ℕ)) → expected_of i rest ≡ expected_from (held_by []) 1 rest) }
        ensures running { IfOk result (λ i. IsRunning i) }
        ensures none { IfOk result (λ i. i.out.items ≡ []) }
    {
        Ok(Interpreter {
            store: Store::new(alloc, pages)?,
            parser: Parser::plain(),
            out: Vec::new(alloc),
        })
    }

    /// How many lines were taken.
    pub fn taken(&self) -> u32
        ensures count { result ≡ self.now.parser.taken }
        ensures within { result ≤ 2097152 }
    {
        self.parser.taken()
    }

    /// How many calls were made.
    pub fn calls(&self) -> u32
        ensures { result ≡ length self.now.store.journal }
    {
        self.store.calls()
    }

    /// How many bytes are gathered to be written.
    pub fn gathered(&self) -> usize
        ensures { result ≡ length self.now.out.items }
    {
        self.out.len()
    }

    /// Does what the line says, which was given without its line feed, and gathers what it prints.
    pub fn take_line<R: Threads + Sync, G: Gate + Sync, L: Ledger>(
        &mut self,
        team: &Team<R, G>,
        line: &[u8],
        pages: &mut Steps<L>,
    ) -> Result<(), Stop>
        requires team { IsTeam team.now.workers }
        requires running { IsRunning self.old }
        ensures ok { OnOk result ((rest : List (List ℕ)) → expected_of self.old (line.now ∷ rest) ≡ expected_of self.new rest) }
        ensures running { OnOk result (IsRunning self.new) }
        ensures next { OnOk result (self.new.parser.taken ≡ self.old.parser.taken + 1) }
        ensures within { OnOk result (self.new.parser.taken ≤ 2097152) }
        ensures err { IfErr result (λ stop. (rest : List (List ℕ)) → StopsAt stop self.new.out.items self.new.store.journal (expected_of self.old (line.now ∷ rest))) }
        ensures cause { IfErr result IsOfScript }
    {
        match self.parser.line(line) {
            Ok(None) => Ok(()),
            Ok(Some(item)) => match self.run(team, item, pages) {
                Ok(()) => Ok(()),
                Err(_) => Err(Stop::NoMemory),
            },
            Err(ScriptFault::BadLine { line }) => Err(Stop::BadLine { line }),
            Err(ScriptFault::TooLong) => Err(Stop::TooManyLines),
            Err(ScriptFault::NoMemory) => Err(Stop::NoMemory),
        }
    }

    /// Does an item and gathers what it prints.
    fn run<R: Threads + Sync, G: Gate + Sync, L: Ledger>(
        &mut self,
        team: &Team<R, G>,
        item: Item,
        pages: &mut Steps<L>,
    ) -> Result<(), AllocError>
        requires team { IsTeam team.now.workers }
        requires room { length self.old.store.journal + 1 < 4194304 }
        ensures parser { self.new.parser ≡ self.old.parser }
        ensures held { OnOk result (self.new.store ≡ held_after self.old.store (command_in item)) }
        ensures printed { OnOk result (self.new.out.items ≡ self.old.out.items ++ printed self.old.store (command_in item)) }
        ensures err { OnErr result (self.new.out.items ≡ self.old.out.items) }
    {
        match item {
            Item::One(command) => self.obey(team, &command, pages),
        }
    }

    /// Makes the command's calls and gathers what it prints.
    fn obey<R: Threads + Sync, G: Gate + Sync, L: Ledger>(
        &mut self,
        team: &Team<R, G>,
        command: &Command,
        pages: &mut Steps<L>,
    ) -> Result<(), AllocError>
        requires team { IsTeam team.now.workers }
        requires room { length self.old.store.journal + 1 < 4194304 }
        ensures parser { self.new.parser ≡ self.old.parser }
        ensures held { OnOk result (self.new.store ≡ held_after self.old.store command.now) }
        ensures printed { OnOk result (self.new.out.items ≡ self.old.out.items ++ printed self.old.store command.now) }
        ensures err { OnErr result (self.new.out.items ≡ self.old.out.items) }
    {
        match *command {
            Command::Write(write) => {
                let reply = self.store.write(write)?;
                print_reply(&mut self.out, command, &reply)
            }
            Command::Checkpoint => {
                let reply = self.store.checkpoint(pages)?;
                print_reply(&mut self.out, command, &reply)
            }
            Command::Merge => {
                let reply = self.store.merge(team.alloc, pages)?;
                print_reply(&mut self.out, command, &reply)
            }
            Command::Retire { k } => {
                let reply = self.store.retire(k)?;
                print_reply(&mut self.out, command, &reply)
            }
            Command::Read { at, what } => {
                let Looked { reply, snapshot } = self.store.look(at)?;
                match snapshot {
                    Some(snapshot) => self.read(team, command, &snapshot, what),
                    None => print_reply(&mut self.out, command, &reply),
                }
            }
        }
    }

    /// Reads the snapshot.
    fn read<R: Threads + Sync, G: Gate + Sync>(
        &mut self,
        team: &Team<R, G>,
        command: &Command,
        snapshot: &Snapshot,
        what: Read,
    ) -> Result<(), AllocError>
        requires team { IsTeam team.now.workers }
        requires told { IsTold self.old.store.standing snapshot.now }
        ensures parser { self.new.parser ≡ self.old.parser }
        ensures store { self.new.store ≡ self.old.store }
        ensures printed { OnOk result (self.new.out.items ≡ self.old.out.items ++ told_at self.old.store snapshot.now.number what) }
        ensures err { OnErr result (self.new.out.items ≡ self.old.out.items) }
    {
        match what {
            Read::Row { v } => self.read_row(command, snapshot, v),
            Read::Edges => self.read_edges(snapshot),
            Read::Bfs { s, sum } => self.read_levels(team, command, snapshot, s, sum),
            Read::Labels { sum } => self.read_labels(team, snapshot, sum),
            Read::Degrees => self.read_degrees(team, snapshot),
            Read::Rank { rounds, sum } => self.read_ranks(team, snapshot, rounds, sum),
            Read::Dist { s, sum } => self.read_distances(team, command, snapshot, s, sum),
            Read::AsOf { j, v } => self.read_as_of(team, command, snapshot, j, v),
        }
    }

    /// Reads the row of a vertex.
    fn read_row(&mut self, command: &Command, snapshot: &Snapshot, v: u32) -> Result<(), AllocError>
        requires { AreOfGraph snapshot.now.rows (graph_of empty_opening self.old.store.standing snapshot.now.number) }
        ensures parser { self.new.parser ≡ self.old.parser }
        ensures store { self.new.store ≡ self.old.store }
        ensures printed { OnOk result (self.new.out.items ≡ self.old.out.items ++ told_at self.old.store snapshot.now.number (Row v)) }
        ensures err { OnErr result (self.new.out.items ≡ self.old.out.items) }
    {
        let count = snapshot.count();
        if v < count {
            print_row(&mut self.out, snapshot.number(), snapshot, v)
        } else {
            self.refuse_vertex(command, v, count)
        }
    }

    /// Says that there is no such vertex.
    fn refuse_vertex(
        &mut self,
        command: &Command,
        vertex: u32,
        count: u32,
    ) -> Result<(), AllocError>
        ensures parser { self.new.parser ≡ self.old.parser }
        ensures store { self.new.store ≡ self.old.store }
        ensures printed { OnOk result (self.new.out.items ≡ self.old.out.items ++ refusal_line (UnknownVertex vertex count)) }
        ensures err { OnErr result (self.new.out.items ≡ self.old.out.items) }
    {
        self.refuse(command, Refusal::UnknownVertex { vertex, count })
    }

    /// Says what is refused.
    fn refuse(&mut self, command: &Command, refusal: Refusal) -> Result<(), AllocError>
        ensures parser { self.new.parser ≡ self.old.parser }
        ensures store { self.new.store ≡ self.old.store }
        ensures printed { OnOk result (self.new.out.items ≡ self.old.out.items ++ refusal_line refusal) }
        ensures err { OnErr result (self.new.out.items ≡ self.old.out.items) }
    {
        print_reply(&mut self.out, command, &Reply::Refused(refusal))
    }

    /// Reads all edges.
    fn read_edges(&mut self, snapshot: &Snapshot) -> Result<(), AllocError>
        requires { AreOfGraph snapshot.now.rows (graph_of empty_opening self.old.store.standing snapshot.now.number) }
        ensures parser { self.new.parser ≡ self.old.parser }
        ensures store { self.new.store ≡ self.old.store }
        ensures printed { OnOk result (self.new.out.items ≡ self.old.out.items ++ told_at self.old.store snapshot.now.number Edges) }
        ensures err { OnErr result (self.new.out.items ≡ self.old.out.items) }
    {
        print_edges(&mut self.out, snapshot.number(), snapshot)
    }

    /// Reads the levels from a vertex.
    fn read_levels<R: Threads + Sync, G: Gate + Sync>(
        &mut self,
        team: &Team<R, G>,
        command: &Command,
        snapshot: &Snapshot,
        s: u32,
        sum: bool,
    ) -> Result<(), AllocError>
        requires team { IsTeam team.now.workers }
        requires rows { AreOfGraph snapshot.now.rows (graph_of empty_opening self.old.store.standing snapshot.now.number) }
        ensures parser { self.new.parser ≡ self.old.parser }
        ensures store { self.new.store ≡ self.old.store }
        ensures printed { OnOk result (self.new.out.items ≡ self.old.out.items ++ told_at self.old.store snapshot.now.number (Bfs s sum)) }
        ensures err { OnErr result (self.new.out.items ≡ self.old.out.items) }
    {
        let count = snapshot.count();
        if s < count {
            let targets = Targets::new(snapshot);
            let found = levels(team.rt, team.alloc, &targets, s, team.workers, team.gate)?;
            print_levels(&mut self.out, snapshot.number(), s, &found, sum)
        } else {
            self.refuse_vertex(command, s, count)
        }
    }

    /// Reads the labels.
    fn read_labels<R: Threads + Sync, G: Gate + Sync>(
        &mut self,
        team: &Team<R, G>,
        snapshot: &Snapshot,
        sum: bool,
    ) -> Result<(), AllocError>
        requires team { IsTeam team.now.workers }
        requires rows { AreOfGraph snapshot.now.rows (graph_of empty_opening self.old.store.standing snapshot.now.number) }
        ensures parser { self.new.parser ≡ self.old.parser }
        ensures store { self.new.store ≡ self.old.store }
        ensures printed { OnOk result (self.new.out.items ≡ self.old.out.items ++ told_at self.old.store snapshot.now.number (Labels sum)) }
        ensures err { OnErr result (self.new.out.items ≡ self.old.out.items) }
    {
        let targets = Targets::new(snapshot);
        let found = labels(team.rt, team.alloc, &targets, team.workers, team.gate)?;
        print_labels(team.alloc, &mut self.out, snapshot.number(), &found, sum)
    }

    /// Reads how many edges leave vertices.
    fn read_degrees<R: Threads + Sync, G: Gate + Sync>(
        &mut self,
        team: &Team<R, G>,
        snapshot: &Snapshot,
    ) -> Result<(), AllocError>
        requires rows { AreOfGraph snapshot.now.rows (graph_of empty_opening self.old.store.standing snapshot.now.number) }
        ensures parser { self.new.parser ≡ self.old.parser }
        ensures store { self.new.store ≡ self.old.store }
        ensures printed { OnOk result (self.new.out.items ≡ self.old.out.items ++ told_at self.old.store snapshot.now.number Degrees) }
        ensures err { OnErr result (self.new.out.items ≡ self.old.out.items) }
    {
        let totals = degrees(team.rt, snapshot);
        print_degrees(&mut self.out, snapshot.number(), &totals)
    }

    /// Reads the ranks after so many rounds.
    fn read_ranks<R: Threads + Sync, G: Gate + Sync>(
        &mut self,
        team: &Team<R, G>,
        snapshot: &Snapshot,
        rounds: u32,
        sum: bool,
    ) -> Result<(), AllocError>
        requires team { IsTeam team.now.workers }
        requires rows { AreOfGraph snapshot.now.rows (graph_of empty_opening self.old.store.standing snapshot.now.number) }
        ensures parser { self.new.parser ≡ self.old.parser }
        ensures store { self.new.store ≡ self.old.store }
        ensures printed { OnOk result (self.new.out.items ≡ self.old.out.items ++ told_at self.old.store snapshot.now.number (Rank rounds sum)) }
        ensures err { OnErr result (self.new.out.items ≡ self.old.out.items) }
    {
        let targets = Targets::new(snapshot);
        let found = rank(
            team.rt,
            team.alloc,
            &targets,
            rounds,
            team.workers,
            team.gate,
        )?;
        print_rank(&mut self.out, snapshot.number(), rounds, &found, sum)
    }

    /// Reads how each vertex is reached from a vertex.
    fn read_distances<R: Threads + Sync, G: Gate + Sync>(
        &mut self,
        team: &Team<R, G>,
        command: &Command,
        snapshot: &Snapshot,
        s: u32,
        sum: bool,
    ) -> Result<(), AllocError>
        requires { AreOfGraph snapshot.now.rows (graph_of empty_opening self.old.store.standing snapshot.now.number) }
        ensures parser { self.new.parser ≡ self.old.parser }
        ensures store { self.new.store ≡ self.old.store }
        ensures printed { OnOk result (self.new.out.items ≡ self.old.out.items ++ told_at self.old.store snapshot.now.number (Dist s sum)) }
        ensures err { OnErr result (self.new.out.items ≡ self.old.out.items) }
    {
        let count = snapshot.count();
        if s < count {
            let found = distances(team.alloc, snapshot, s)?;
            print_dist(&mut self.out, snapshot.number(), s, &found, sum)
        } else {
            self.refuse_vertex(command, s, count)
        }
    }

    /// Reads the targets that the row of a vertex has in the graph of the number `j`.
    fn read_as_of<R: Threads + Sync, G: Gate + Sync>(
        &mut self,
        team: &Team<R, G>,
        command: &Command,
        snapshot: &Snapshot,
        j: u32,
        v: u32,
    ) -> Result<(), AllocError>
        requires { IsTold self.old.store.standing snapshot.now }
        ensures parser { self.new.parser ≡ self.old.parser }
        ensures store { self.new.store ≡ self.old.store }
        ensures printed { OnOk result (self.new.out.items ≡ self.old.out.items ++ told_at self.old.store snapshot.now.number (AsOf j v)) }
        ensures err { OnErr result (self.new.out.items ≡ self.old.out.items) }
    {
        let number = snapshot.number();
        let floor = snapshot.floor();
        if j < floor || number < j {
            let refusal = Refusal::NoSnapshot {
                asked: j,
                oldest: floor,
                newest: number,
            };
            return self.refuse(command, refusal);
        }
        let count = snapshot.count();
        if v >= count {
            return self.refuse_vertex(command, v, count);
        }
        let targets = snapshot.row_as_of(team.alloc, v, j)?;
        print_asof(&mut self.out, number, j, v, &targets)
    }
}
