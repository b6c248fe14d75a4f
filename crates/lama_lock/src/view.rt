//! What a seat at the table of a hall knows. No value of these types is made: they are there for the proofs.

use lama_model::Entry;
use std::collections::LinkedList;

/// The value with which a hall began, and how many callers it has.
#[derive(Drop)]
pub struct Founding<B> {
    pub value: B,
    pub callers: u16,
}

/// Where the turn is.
pub enum Stage {
    /// Not with this view.
    Idle,
    /// With it, while the slot is at home and has no value yet.
    Empty,
    /// With it, and so is the slot.
    Holding,
}

/// A caller: its number, the journal that it has seen and its own calls.
pub struct Member {
    pub caller: u16,
    pub seen: LinkedList<Entry>,
    pub own: LinkedList<Entry>,
}

/// A pass has one member. The view from which a hall begins has none, or the caller whose number it drew last; one into
/// which others went at the end has theirs too. A view that went into another knows nothing.
pub struct View<B> {
    pub founding: Option<Founding<B>>,
    pub stage: Stage,
    pub starting: bool,
    /// How many numbers the starting view has drawn.
    pub drawn: u16,
    pub members: LinkedList<Member>,
}
