//! Rows of a graph, whatever holds them.

ghost use Rattle.std.specs.Prelude.{◌≡◌, ◌<◌, ℕ, List, [], ◌∷◌, All, MatchOption, length, slice_index_or};
ghost use Rattle.lama_model.specs.Row.{row_at, AreTargetsBelow};

/// The rows of a graph: for each vertex its out-edges, newest first, as a list of (target, weight).
/// A reader walks a row from [`Rows::start`] by [`Rows::next`]. None of the calls takes memory.
pub trait Rows {
    /// A place in a row. It stands for what is left of that row.
    type At: Copy;

    /// The rows, that of vertex 0 first.
    ghost rows: { Self → List (List (ℕ × ℕ)) };

    /// The place is one of these rows.
    ghost is_place: { Self → Self.At → Type 0 };

    /// What is left of the row at the place.
    ghost suffix: { Self → Self.At → List (ℕ × ℕ) };

    /// How many vertices there are. Every target is below it.
    fn count(&self) -> u32
        ensures count { result ≡ length (rows self.now) }
        ensures targets { AreTargetsBelow result (rows self.now) };

    /// The out-degree of a vertex: how many edges its row has.
    fn degree(&self, v: u32) -> u32
        requires { v < length (rows self.now) }
        ensures { result ≡ length (row_at (rows self.now) v) };

    /// The place of the whole row of a vertex.
    fn start(&self, v: u32) -> Self::At
        requires { v < length (rows self.now) }
        ensures place { is_place self.now result }
        ensures whole { suffix self.now result ≡ row_at (rows self.now) v };

    /// The first edge at the place, with the place of the rest, or None at the row's end.
    fn next(&self, at: Self::At) -> Option<(u32, u64, Self::At)>
        requires { is_place self.now at }
        ensures { MatchOption result (suffix self.now at ≡ []) (λ found.
            is_place self.now found.2 × (suffix self.now at ≡ (found.0, found.1) ∷ suffix self.now found.2)) };
}
