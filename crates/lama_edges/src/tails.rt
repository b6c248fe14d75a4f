// The tails of a table's fragments.
ghost use Rattle.std.specs.Prelude.{◌≡◌};
ghost use Rattle.lama_edges.specs.Placed as placed;

use crate::records::Slot;

// What is behind the last edge of a fragment, and the place of its slot.
#[derive(Clone, Copy, Debug)]
pub(crate) struct Tail {
    pub place: u32,
    pub slot: Slot,
    // Where the list goes on: what the number of that fragment's tail is said to be in its own table.
    pub next: u32,
}

// The slot at place `i` with that word: of an edge the word is its target, and of a tail its number among the tails.
pub(crate) fn slot_of(tails: &[Tail], i: u32, word: u32) -> Slot
    ensures { result ≡ placed.slot_of tails.now i word }
{
    let Some(tail) = tails.get(word as usize) else {
        return Slot::Edge { target: word };
    };
    if tail.place == i {
        tail.slot
    } else {
        Slot::Edge { target: word }
    }
}

// What the tail of that number says of the number of the next one.
pub(crate) fn next_of(tails: &[Tail], number: u32) -> u32 {
    match tails.get(number as usize) {
        Some(tail) => tail.next,
        None => 0,
    }
}
