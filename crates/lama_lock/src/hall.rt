ghost use Rattle.std.specs.Prelude.{◌≡◌, ◌+◌, ◌<◌, ◌≤◌, [], ℕ, All, IfOk, IfErr, OnErr, MatchResult, length, map, take, drop, vec_len, vec_capacity};
ghost use Rattle.std.specs.List.{range_with_len};
ghost use Rattle.lama_model.specs.Pass.{SeesMore, StepsTo, BeginsWith, IsByOneOf, calls_by};
ghost use Rattle.lama_lock.specs.declared.view.Stage.TheVariants.{Idle, Empty};
ghost use Rattle.lama_lock.specs.Views.{left, starting};
ghost use Rattle.lama_lock.specs.Hall.{IsPassOf, AreAll, first_pass, member_in};

use crate::kept::Kept;
use crate::pass::Pass;
use crate::steps::{Desk, Seat};
use crate::view::Founding;
use atomic_table::Table;
use lama_pages::Steps;
use std::alloc::{AllocError, Global};
use std::marker::Model;
use std::sync::Wait;
use std::sync::ledger::Ledger;

/// A value and its callers. A contract sees which hall it is, the value with which it began, and how many callers it has.
#[derive(Drop)]
pub struct Hall<B: Kept> {
    desk: Desk<B>,
}

impl<B: Kept> Model for Hall<B> {
    ghost use Rattle.std.specs.Prelude.{◌≤◌};
    ghost use Rattle.lama_lock.specs.Hall as seen;

    ghost Value = { seen.Hall B };

    ghost view = { λ h. record { id = h.desk.table.shared.table_id; start = h.desk.table.shared.key.value; callers = h.desk.table.shared.key.callers } };

    ghost invariant = { λ h. (1 ≤ h.desk.table.shared.key.callers) × (h.desk.table.shared.key.callers ≤ 16) };
}

/// What a call was answered, and its place in the journal, from 0.
#[derive(Drop)]
pub struct Placed<T> {
    pub place: u32,
    pub answer: T,
}

impl<B: Kept> Hall<B> {
    /// The hall of a value, and a pass for each of so many callers, whose numbers are from 1 on. At `Err` there was no
    /// memory, and the value comes back.
    pub fn start(alloc: Global, value: B, callers: u16) -> Result<(Hall<B>, Vec<Pass<B>>), B>
        requires some { 1 ≤ callers }
        requires few { callers ≤ 16 }
        ensures hall { IfOk result (λ r. (r.0.start ≡ value) × (r.0.callers ≡ callers)) }
        ensures passes { IfOk result (λ r. r.1.items ≡ map (first_pass B.journal r.0) (range_with_len 1 callers)) }
        ensures ours { IfOk result (λ r. All (IsPassOf r.0) r.1.items) }
        ensures all { IfOk result (λ r. AreAll r.0 r.1.items) }
        ensures err { IfErr result (λ v. v ≡ value) }
    {
        let Ok(passes) = Vec::with_capacity(alloc, callers as usize) else {
            return Err(value);
        };
        let length = value.taken() as u64;
        let founding = Founding { value, callers };
        let Ok((table, seat)) = Table::vacant(alloc, &[1, length, 0], 1, &founding) else {
            let Founding { value, .. } = founding;
            return Err(value);
        };
        let Founding { value, .. } = founding;
        let hall = Hall {
            desk: Desk { table },
        };
        let passes = hall.admit(seat, value, callers, passes);
        Ok((hall, passes))
    }

    // Puts the value into the slot, and makes all passes.
    fn admit(
        &self,
        mut seat: Seat<B>,
        value: B,
        callers: u16,
        mut passes: Vec<Pass<B>>,
    ) -> Vec<Pass<B>>
        requires here { seat.table_id ≡ self.now.id }
        requires first { seat.me ≡ (starting (record { value = self.now.start; callers = self.now.callers }) Empty 0, []) }
        requires value { value ≡ self.now.start }
        requires callers { callers ≡ self.now.callers }
        requires none { passes.items ≡ [] }
        requires room { callers ≤ vec_capacity passes }
        ensures passes { result.items ≡ map (first_pass B.journal self.now) (range_with_len 1 callers) }
        ensures ours { All (IsPassOf self.now) result.items }
        ensures all { AreAll self.now result.items }
    {
        self.desk.begin(&mut seat, value);
        for caller in 1..callers {
            let dealt = self.desk.deal(&mut seat);
            passes.push_reserved(Pass {
                seat: dealt,
                caller,
            });
        }
        self.desk.deal_last(&mut seat);
        passes.push_reserved(Pass {
            seat,
            caller: callers,
        });
        passes
    }

    /// Makes a call: waits for the turn, has the value serve, and lets go of the turn.
    pub fn enter<R: Wait, L: Ledger>(
        &self,
        rt: &R,
        pass: &mut Pass<B>,
        ask: B::Ask,
        pages: &mut Steps<L>,
    ) -> Result<Placed<B::Answer>, B::Fault>
        requires ours { IsPassOf self.now pass.old }
        requires may { (s : B.Setting) × B.fits s self.now.start × B.may s pass.old.known.seen ask }
        ensures ours { IsPassOf self.now pass.new }
        ensures call { IfOk result (λ p. StepsTo self.now.callers pass.old.known (B.call ask) p.place pass.new.known) }
        ensures answer { IfOk result (λ p. (s : B.Setting) → B.fits s self.now.start → B.gives s (take p.place pass.new.known.seen) ask p.answer) }
        ensures unserved { OnErr result (SeesMore pass.old.known pass.new.known) }
        ensures fault { IfErr result (λ f. (s : B.Setting) → B.fits s self.now.start → B.fails s pass.new.known.seen (B.room self.now.start) ask f) }
        ensures pages { (s : B.Setting) → B.fits s self.now.start → MatchResult result
            (λ p. pages.new ≤ pages.old + B.bound s (take p.place pass.new.known.seen) ask)
            (λ f. pages.new ≤ pages.old + B.bound s pass.new.known.seen ask) }
    {
        let mut value = self.desk.take_value(rt, &mut pass.seat);
        let served = value.serve(pass.caller, ask, pages);
        self.desk.put_back(&mut pass.seat, value);
        match served {
            Ok(answer) => {
                let place = self.desk.mark(&mut pass.seat) as u32;
                self.desk.let_go(&mut pass.seat);
                Ok(Placed { place, answer })
            }
            Err(fault) => {
                self.desk.let_go(&mut pass.seat);
                Err(fault)
            }
        }
    }

    /// The value, once all its callers are back. Their calls are the journal's entries since the start.
    pub fn close(self, passes: Vec<Pass<B>>) -> Result<B, AllocError>
        requires ours { All (IsPassOf self) passes.items }
        requires all { AreAll self passes.items }
        ensures setting { IfOk result (λ v. (s : B.Setting) → B.fits s self.start → B.fits s v) }
        ensures began { IfOk result (λ v. BeginsWith (B.journal v) (B.journal self.start)) }
        ensures seen { IfOk result (λ v. All (λ p. BeginsWith (B.journal v) p.known.seen) passes.items) }
        ensures named { IfOk result (λ v. All (IsByOneOf self.callers) (drop (length (B.journal self.start)) (B.journal v))) }
        ensures own { IfOk result (λ v. All (λ p. p.known.own ≡ calls_by p.known.caller (length (B.journal self.start)) (B.journal v)) passes.items) }
    {
        let seat = self.gather(passes);
        let Hall { desk } = self;
        Ok(desk.close(seat))
    }

    // One seat with what all passes know.
    fn gather(&self, mut passes: Vec<Pass<B>>) -> Seat<B>
        requires ours { All (IsPassOf self.now) passes.items }
        requires some { 0 < vec_len passes }
        ensures here { result.table_id ≡ self.now.id }
        ensures all { result.me ≡ (left (record { value = self.now.start; callers = self.now.callers }) Idle (map member_in passes.items), []) }
    {
        let Some(first) = passes.pop() else {
            unreachable!()
        };
        let mut seat = first.into_seat();
        while let Some(pass) = passes.pop() {
            let other = pass.into_seat();
            self.desk.join(&mut seat, other);
        }
        seat
    }
}
