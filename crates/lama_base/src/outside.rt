//! What lies outside the program: where bytes come from, where they go, and where a thread may be held.
//!
//! A contract sees of a source the bytes that are left and of a sink the bytes that were written, where
//! they tell that. Each counts its faults; a count never falls, and stands still at its last value.

ghost use Rattle.std.specs.Prelude.{◌≡◌, ◌<◌, ◌≤◌, ◌^◌, ℕ, List, Option, IfOk, OnErr, Err, length};
ghost use Rattle.lama_base.specs.Faults.{Rose};
ghost use Rattle.lama_base.specs.Bytes.{Gives, Takes};

/// A read or a write failed outside the program. Nothing was moved by it.
#[derive(Clone, Copy, Debug, PartialEq, Eq)]
pub struct Failed;

/// Why a sink took nothing of a piece.
#[derive(Clone, Copy, Debug, PartialEq, Eq)]
pub enum SinkFault {
    /// The write failed outside the program.
    Failed,
    /// A sink in memory could not grow.
    NoMemory,
}

/// Where bytes come from.
pub trait Source {
    /// The bytes that are left, first the next one, where this source tells them.
    ghost left: { Self → Option (List ℕ) };

    /// How many reads have failed.
    ghost faults: { Self → ℕ };

    /// Moves bytes from the source to the front of the buffer and says how many. For a buffer that
    /// is not empty 0 is the end of input. After `Failed` the bytes left are as before.
    fn read(&mut self, buf: &mut [u8]) -> Result<usize, Failed>
        ensures count { IfOk result (λ n. n ≤ length buf.new) }
        ensures given { IfOk result (λ n. Gives (left self.old) (left self.new) n buf.new) }
        ensures kept { OnErr result (left self.new ≡ left self.old) }

        // A failure is counted, and the count never falls.
        ensures cause { OnErr result (Rose (faults self.old) (faults self.new)) }
        ensures steady { faults self.old ≤ faults self.new }
        ensures bounded { faults self.new < 2 ^ 64 };
}

/// Where bytes go.
pub trait Sink {
    /// The bytes that were written, first the oldest one, where this sink tells them.
    ghost written: { Self → Option (List ℕ) };

    /// How many writes have failed.
    ghost faults: { Self → ℕ };

    /// Takes bytes from the front of the piece and says how many: at least one, unless the piece is
    /// empty. After an `Err` nothing of the piece was taken.
    fn write(&mut self, bytes: &[u8]) -> Result<usize, SinkFault>
        ensures count { IfOk result (λ n. n ≤ length bytes.now) }
        ensures progress { IfOk result (λ n. 0 < length bytes.now → 0 < n) }
        ensures taken { IfOk result (λ n. Takes (written self.old) (written self.new) n bytes.now) }
        ensures kept { OnErr result (written self.new ≡ written self.old) }

        // A failure is counted, and the count never falls.
        ensures cause { result ≡ Err SinkFault.Failed → Rose (faults self.old) (faults self.new) }
        ensures steady { faults self.old ≤ faults self.new }
        ensures bounded { faults self.new < 2 ^ 64 };
}

/// The point of a [`Gate`] at which a piece of a computation begins.
pub const PIECE_BEGINS: u32 = 4;

/// Points that a run reaches, at which a test may hold the thread that reaches them.
///
/// The points are: 1 a call on the store is about to be made; 2 that call was answered; 3 a reading
/// command holds its snapshot and has not read it yet; 4, [`PIECE_BEGINS`], a piece of a computation begins.
pub trait Gate {
    /// Says that the point was reached: at points 1 to 3 by the caller of that number, which is 0 where
    /// there is but one, and at point 4 by the piece of that index. It changes nothing that a contract sees.
    fn reach(&self, point: u32, piece: u32);
}
