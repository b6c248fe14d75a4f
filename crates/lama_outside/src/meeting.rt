//! A gate at which two pieces of a computation wait for each other.

use lama_base::{Gate, PIECE_BEGINS};
use std::sync::atomic::{AtomicBool, Ordering};
use std::thread::yield_now;

/// So many turns a piece waits for the other one, and at each it yields its thread.
const TURNS: u32 = 10_000_000;

/// The gate of a test: each of the pieces 0 and 1 of a computation is held where it begins until the other one has begun
/// too. So pieces that are done one after another are found out. After 10,000,000 turns a piece is held no longer.
#[derive(Drop)]
pub struct Meeting {
    first_came: AtomicBool,
    second_came: AtomicBool,
    gave_up: AtomicBool,
}

impl Meeting {
    /// No piece has come yet.
    pub fn new() -> Meeting {
        Meeting {
            first_came: AtomicBool::new(false),
            second_came: AtomicBool::new(false),
            gave_up: AtomicBool::new(false),
        }
    }

    /// Whether both pieces have come, and none waited in vain.
    pub fn met(&self) -> bool {
        let came = self.first_came.load(Ordering::SeqCst)
            && self.second_came.load(Ordering::SeqCst);
        came && !self.gave_up.load(Ordering::SeqCst)
    }

    // Holds a piece until the other one has come.
    fn meet(&self, mine: &AtomicBool, other: &AtomicBool) {
        mine.store(true, Ordering::SeqCst);
        for _ in 0..TURNS {
            if other.load(Ordering::SeqCst) {
                return;
            }
            yield_now();
        }
        self.gave_up.store(true, Ordering::SeqCst);
    }
}

impl Gate for Meeting {
    fn reach(&self, point: u32, piece: u32) {
        if point != PIECE_BEGINS {
            return;
        }
        match piece {
            0 => self.meet(&self.first_came, &self.second_came),
            1 => self.meet(&self.second_came, &self.first_came),
            _ => {}
        }
    }
}
