ghost use Rattle.std.specs.Prelude.{◌≡◌, Some, [], ◌∷◌};
ghost use Rattle.lama_lock.specs.declared.view.Founding.{Founding as SeenFounding};
ghost use Rattle.lama_lock.specs.declared.view.Stage.TheVariants.{Idle};
ghost use Rattle.lama_lock.specs.Views.{left};
ghost use Rattle.lama_lock.specs.Hall.{member_in};

use crate::kept::Kept;
use crate::steps::Seat;
use std::marker::Model;

/// A caller of a hall. A contract sees its number, how many calls the journal had at the start, the journal that it has
/// seen, and its own calls. It takes the bytes of the number alone.
#[derive(Drop)]
pub struct Pass<B: Kept> {
    pub(crate) seat: Seat<B>,
    pub(crate) caller: u16,
}

impl<B: Kept> Model for Pass<B> {
    ghost use Rattle.lama_lock.specs.Hall.{Caller, shown, IsIdle};

    ghost Value = { Caller B };

    ghost view = { λ p. record { hall = p.seat.table_id; founding = p.seat.me.0.founding; known = shown B.journal p.seat.me.0 } };

    ghost invariant = { λ p. IsIdle B.journal p.caller p.seat.me };
}

impl<B: Kept> Pass<B> {
    /// The caller's number, from 1 on.
    pub fn caller(&self) -> u16
        ensures { result ≡ self.now.known.caller }
    {
        self.caller
    }

    // The seat of a pass that makes no more calls.
    pub(crate) fn into_seat(self) -> Seat<B>
        ensures here { result.table_id ≡ self.hall }
        ensures known { (f : SeenFounding B) → self.founding ≡ Some f → result.me ≡ (left f Idle (member_in self ∷ []), []) }
    {
        let Pass { seat, .. } = self;
        seat
    }
}
