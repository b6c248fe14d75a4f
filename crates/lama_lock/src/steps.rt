//! The steps at the table of a hall, one function each.
ghost use Rattle.std.specs.Prelude.{◌≡◌, ◌+◌, ◌<◌, ◌≤◌, Some, None, [], ◌∷◌, ◌++◌, ℕ, List, MatchBool, Contains, length, map};
ghost use Rattle.lama_model.specs.declared.calls.Call.{Call as SeenCall};
ghost use Rattle.lama_lock.specs.declared.view.Founding.{Founding as SeenFounding};
ghost use Rattle.lama_lock.specs.declared.view.Member.{Member as SeenMember};
ghost use Rattle.lama_lock.specs.declared.view.Stage.TheVariants.{Idle, Empty, Holding};
ghost use Rattle.lama_lock.specs.Views.{Known, Keeps, left, pass, member_of, newcomer, starting, spent};
ghost use Rattle.lama_lock.specs.Rule.{Holds};
ghost use Rattle.lama_lock.specs.Steps.{IsTaken, having_seen, with_calls, grabbed, marked, freed, opened, begun, drew, drew_last, kept_back, handed_out, together, IsClosed};

use crate::kept::Kept;
use crate::view::{Founding, View};
use atomic_table::{Join, Play, Split, Table, TableRule};
use std::alloc::Global;
use std::hint::spin_loop;
use std::sync::Wait;
use std::thread::yield_now;

pub(crate) type Seat<B> = atomic_table::Seat<Option<B>, View<B>>;

// The words of the table.
const TURN: usize = 0;

const LENGTH: usize = 1;

const DRAWN: usize = 2;

pub(crate) struct Law;

impl<B: Kept> TableRule<Option<B>, View<B>, Founding<B>> for Law {
    ghost holds = { Holds B.journal (Keeps B.fits B.room) };

    ghost first = { λ f. starting f Empty 0 };
}

pub(crate) struct Grab;

impl<B: Kept> Play<Option<B>, View<B>> for Grab {
    ghost then = { λ step. grabbed B.journal (Keeps B.fits B.room) };
}

pub(crate) struct Mark;

impl<B: Kept> Play<Option<B>, View<B>> for Mark {
    ghost then = { λ step. marked B.journal (Keeps B.fits B.room) };
}

pub(crate) struct LetGo;

impl<B: Kept> Play<Option<B>, View<B>> for LetGo {
    ghost then = { λ step. freed B.journal (Keeps B.fits B.room) };
}

pub(crate) struct Open;

impl<B: Kept> Play<Option<B>, View<B>> for Open {
    ghost then = { λ step. opened B.journal (Keeps B.fits B.room) };
}

pub(crate) struct Begin;

impl<B: Kept> Play<Option<B>, View<B>> for Begin {
    ghost then = { λ step. begun B.journal (Keeps B.fits B.room) };
}

pub(crate) struct Draw;

impl<B: Kept> Play<Option<B>, View<B>> for Draw {
    ghost then = { λ step. drew B.journal (Keeps B.fits B.room) };
}

pub(crate) struct DrawLast;

impl<B: Kept> Play<Option<B>, View<B>> for DrawLast {
    ghost then = { λ step. drew_last B.journal (Keeps B.fits B.room) };
}

pub(crate) struct HandOut;

impl<B> Split<View<B>> for HandOut {
    ghost left = { kept_back };

    ghost right = { handed_out };
}

pub(crate) struct Together;

impl<B> Join<View<B>> for Together {
    ghost both = { together };

    ghost spent = { spent };
}

// How often a caller looks for the turn before it lets other threads run.
const SPINS: u32 = 64;

// What a caller does after so many looks at a turn that is another's.
fn pause(tries: u32) {
    if tries < SPINS {
        spin_loop();
    } else {
        yield_now();
    }
}

/// The table of a hall: the turn, the length of the journal, how many numbers were drawn, and the slot with the value.
#[derive(Drop)]
pub(crate) struct Desk<B: Kept> {
    pub(crate) table: Table<Option<B>, View<B>, Founding<B>, Law, Global>,
    ghost sized: { (table.shared.table_id.words ≡ 3) × (table.shared.table_id.slots ≡ 1) },
}

impl<B: Kept> Desk<B> {
    // Tries once to take the turn, and the slot with it.
    fn grab(&self, seat: &mut Seat<B>) -> bool
        requires here { seat.old.table_id ≡ self.now.table.shared.table_id }
        requires idle { (k : Known B) × (seat.old.me ≡ (pass Idle k, [])) }
        ensures here { seat.new.table_id ≡ seat.old.table_id }
        ensures told { MatchBool result
            ((k : Known B) → seat.old.me ≡ (pass Idle k, []) → (x : B) × (seat.new.me ≡ (pass Holding (having_seen B.journal (Keeps B.fits B.room) k (B.journal x)), (0, Some x) ∷ [])) × IsTaken B.journal (Keeps B.fits B.room) k x)
            (seat.new.me ≡ seat.old.me) }
    {
        self.table.shared.swap::<Grab>(seat, TURN, 1) == 0
    }

    // Waits for the turn, and takes the slot with it.
    fn take_turn<R: Wait>(&self, rt: &R, seat: &mut Seat<B>)
        requires here { seat.old.table_id ≡ self.now.table.shared.table_id }
        requires idle { (k : Known B) × (seat.old.me ≡ (pass Idle k, [])) }
        ensures here { seat.new.table_id ≡ seat.old.table_id }
        ensures told { (k : Known B) → seat.old.me ≡ (pass Idle k, []) →
            (x : B) × (seat.new.me ≡ (pass Holding (having_seen B.journal (Keeps B.fits B.room) k (B.journal x)), (0, Some x) ∷ [])) × IsTaken B.journal (Keeps B.fits B.room) k x }
    {
        let mut tries = 0u32;
        for _ in rt.forever() {
            if self.grab(seat) {
                return;
            }
            pause(tries);
            tries = tries.saturating_add(1);
        }
    }

    /// Waits for the turn, and takes the value out of the slot.
    pub(crate) fn take_value<R: Wait>(&self, rt: &R, seat: &mut Seat<B>) -> B
        requires here { seat.old.table_id ≡ self.now.table.shared.table_id }
        requires idle { (k : Known B) × (seat.old.me ≡ (pass Idle k, [])) }
        ensures here { seat.new.table_id ≡ seat.old.table_id }
        ensures told { (k : Known B) → seat.old.me ≡ (pass Idle k, []) →
            (seat.new.me ≡ (pass Holding (having_seen B.journal (Keeps B.fits B.room) k (B.journal result)), (0, None) ∷ [])) × IsTaken B.journal (Keeps B.fits B.room) k result }
    {
        self.take_turn(rt, seat);
        self.take_out(seat)
    }

    // Takes the value out of the slot.
    fn take_out(&self, seat: &mut Seat<B>) -> B
        requires here { seat.old.table_id ≡ self.now.table.shared.table_id }
        requires out { (x : B) × (seat.old.me.1 ≡ (0, Some x) ∷ []) }
        ensures here { seat.new.table_id ≡ seat.old.table_id }
        ensures value { seat.old.me.1 ≡ (0, Some result) ∷ [] }
        ensures empty { seat.new.me ≡ (seat.old.me.0, (0, None) ∷ []) }
    {
        let Some(value) = self.table.shared.exchange(seat, 0, None) else {
            unreachable!()
        };
        value
    }

    /// Puts the value into the slot.
    pub(crate) fn put_back(&self, seat: &mut Seat<B>, value: B)
        requires here { seat.old.table_id ≡ self.now.table.shared.table_id }
        requires empty { seat.old.me.1 ≡ (0, None) ∷ [] }
        ensures here { seat.new.table_id ≡ seat.old.table_id }
        ensures full { seat.new.me ≡ (seat.old.me.0, (0, Some value) ∷ []) }
    {
        drop(self.table.shared.exchange(seat, 0, Some(value)));
    }

    /// Marks the call that the value has served, and answers its place.
    pub(crate) fn mark(&self, seat: &mut Seat<B>) -> u64
        requires here { seat.old.table_id ≡ self.now.table.shared.table_id }
        requires served { (k : Known B) × (x : B) × (call : SeenCall) × (seat.old.me ≡ (pass Holding k, (0, Some x) ∷ []))
            × (B.journal x ≡ k.seen ++ record { caller = k.caller; call = call } ∷ []) × (length (B.journal x) ≤ 4294967295) }
        ensures here { seat.new.table_id ≡ seat.old.table_id }
        ensures told { (k : Known B) (x : B) → seat.old.me ≡ (pass Holding k, (0, Some x) ∷ []) →
            (result ≡ length k.seen) × (seat.new.me ≡ (pass Holding (with_calls B.journal (Keeps B.fits B.room) k (B.journal x)), (0, Some x) ∷ [])) }
    {
        self.table.shared.fetch_add::<Mark>(seat, LENGTH, 1)
    }

    /// Lets go of the turn, with the value at home.
    pub(crate) fn let_go(&self, seat: &mut Seat<B>)
        requires here { seat.old.table_id ≡ self.now.table.shared.table_id }
        requires marked { (k : Known B) × (x : B) × (seat.old.me ≡ (pass Holding k, (0, Some x) ∷ [])) × (B.journal x ≡ k.seen) × Keeps B.fits B.room k.founding.value x }
        ensures here { seat.new.table_id ≡ seat.old.table_id }
        ensures told { (k : Known B) (x : B) → seat.old.me ≡ (pass Holding k, (0, Some x) ∷ []) → seat.new.me ≡ (pass Idle k, []) }
    {
        self.table.shared.store::<LetGo>(seat, TURN, 0);
    }

    /// Puts the first value into the slot, and lets the first turn go.
    pub(crate) fn begin(&self, seat: &mut Seat<B>, value: B)
        requires here { seat.old.table_id ≡ self.now.table.shared.table_id }
        requires first { (f : SeenFounding B) × (f.value ≡ value) × (seat.old.me ≡ (starting f Empty 0, [])) }
        ensures here { seat.new.table_id ≡ seat.old.table_id }
        ensures told { (f : SeenFounding B) → seat.old.me ≡ (starting f Empty 0, []) → seat.new.me ≡ (starting f Idle 0, []) }
    {
        self.table.shared.load::<Open>(seat, TURN);
        drop(self.table.shared.exchange(seat, 0, Some(value)));
        self.table.shared.store::<Begin>(seat, TURN, 0);
    }

    /// Draws a number, and hands it out in a seat of its own.
    pub(crate) fn deal(&self, seat: &mut Seat<B>) -> Seat<B>
        requires here { seat.old.table_id ≡ self.now.table.shared.table_id }
        requires more { (f : SeenFounding B) × (d : ℕ) × (seat.old.me ≡ (starting f Idle d, [])) × (d + 1 < f.callers) }
        ensures here { (seat.new.table_id ≡ seat.old.table_id) × (result.table_id ≡ seat.old.table_id) }
        ensures told { (f : SeenFounding B) (d : ℕ) → seat.old.me ≡ (starting f Idle d, []) →
            (seat.new.me ≡ (starting f Idle (d + 1), [])) × (result.me ≡ (pass Idle (newcomer f (d + 1) (B.journal f.value)), [])) }
    {
        self.table.shared.fetch_add::<Draw>(seat, DRAWN, 1);
        self.table.shared.split_seat::<HandOut>(seat)
    }

    /// Draws the last number, which is that of the seat from then on.
    pub(crate) fn deal_last(&self, seat: &mut Seat<B>)
        requires here { seat.old.table_id ≡ self.now.table.shared.table_id }
        requires last { (f : SeenFounding B) × (d : ℕ) × (seat.old.me ≡ (starting f Idle d, [])) }
        ensures here { seat.new.table_id ≡ seat.old.table_id }
        ensures told { (f : SeenFounding B) (d : ℕ) → seat.old.me ≡ (starting f Idle d, []) → seat.new.me ≡ (pass Idle (newcomer f (d + 1) (B.journal f.value)), []) }
    {
        self.table.shared.fetch_add::<DrawLast>(seat, DRAWN, 1);
    }

    /// Puts a caller's view with those of others, before them.
    pub(crate) fn join(&self, seat: &mut Seat<B>, other: Seat<B>)
        requires here { (seat.old.table_id ≡ self.now.table.shared.table_id) × (other.table_id ≡ self.now.table.shared.table_id) }
        requires both { (f : SeenFounding B) × (ms : List SeenMember) × (k : Known B) × (seat.old.me ≡ (left f Idle ms, [])) × (other.me ≡ (pass Idle k, [])) }
        ensures here { seat.new.table_id ≡ seat.old.table_id }
        ensures told { (f : SeenFounding B) (ms : List SeenMember) (k : Known B) → seat.old.me ≡ (left f Idle ms, []) → other.me ≡ (pass Idle k, []) → seat.new.me ≡ (left f Idle (member_of k ∷ ms), []) }
    {
        self.table.shared.join_seat::<Together>(seat, other);
    }

    /// The value, once all callers are back.
    pub(crate) fn close(self, seat: Seat<B>) -> B
        requires here { seat.table_id ≡ self.table.shared.table_id }
        requires idle { seat.me.1 ≡ [] }
        requires all { (ms : List SeenMember) × (seat.me.0 ≡ left self.table.shared.key Idle ms) × ((c : ℕ) → 1 ≤ c → c ≤ self.table.shared.key.callers → Contains (map (λ m. m.caller) ms) c) }
        requires some { 1 ≤ self.table.shared.key.callers }
        ensures { (ms : List SeenMember) → seat.me.0 ≡ left self.table.shared.key Idle ms → IsClosed B.journal (Keeps B.fits B.room) self.table.shared.key result ms }
    {
        let Desk { table } = self;
        let mut closed = table.close_with(seat);
        let value = closed.take(0);
        closed.free();
        let Some(value) = value else { unreachable!() };
        value
    }
}
