//! The one step that every source over memory makes.

ghost use Rattle.std.specs.Prelude.{◌≡◌, ◌++◌, take, drop, length, min};
ghost use Rattle.lama_base.specs.Bytes.{Moves};
ghost use Rattle.lama_outside.specs.Memory.{moved};

/// How many bytes one call moves where there is room for `room` of them: a most of 0 counts as 1.
pub fn piece_len(most: usize, room: usize) -> usize
    ensures { result ≡ moved most room }
{
    most.max(1).min(room)
}

/// Copies the next bytes to the front of the buffer and says how many.
pub fn copy_piece(from: &[u8], most: usize, to: &mut [u8]) -> usize
    ensures count { result ≡ moved most (min (length to.old) (length from.now)) }
    ensures copied { to.new ≡ take result from.now ++ drop result to.old }
    ensures moves { Moves from.now (drop result from.now) result to.new }
{
    let count = piece_len(most, to.len().min(from.len()));
    to[..count].copy_from_slice(&from[..count]);
    count
}
