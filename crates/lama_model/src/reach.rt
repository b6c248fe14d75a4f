//! How a vertex is reached by the cheapest walk from a source.

/// The least cost of a walk from a source to a vertex, and the vertex before it on such a walk.
#[derive(Clone, Copy, Debug, PartialEq, Eq)]
pub struct Reach {
    /// The weights of the walk's edges, added up.
    pub sum: u128,
    /// How many edges the walk has.
    pub hops: u32,
    /// The least vertex from which the last edge of such a walk leads here. The source's own is the source.
    pub parent: u32,
}
