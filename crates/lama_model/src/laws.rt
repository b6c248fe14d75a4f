//! Laws of the definitions alone, for every opening and every journal.

ghost use Rattle.std.specs.Prelude.{◌≡◌, ◌+◌, ◌*◌, ◌<◌, ◌≤◌, ◌++◌, [], ◌∷◌, ℕ, List, Option, None, Some, drop, length, map, sum};
ghost use Rattle.std.specs.List.{range_with_len};
ghost use Rattle.lama_model.specs.Graph.{Graph, IsGraph};
ghost use Rattle.lama_model.specs.Row.{row, AreSame};
ghost use Rattle.lama_model.specs.Levels.{AreLevels, levels};
ghost use Rattle.lama_model.specs.Labels.{AreLabels, AreFirst, labels};
ghost use Rattle.lama_model.specs.Degrees.{out_degrees};
ghost use Rattle.lama_model.specs.Ranks.{ranks};
ghost use Rattle.lama_model.specs.Distances.{Cost, HasRoute, IsDistance, AreReached, IsCertified, LeadsBelow, cost_of, reach_at, distances};
ghost use Rattle.lama_model.specs.declared.reach.Reach.{Reach};
ghost use Rattle.lama_model.specs.Change.{change_between, graph_after, row_after, row_through};
ghost use Rattle.lama_model.specs.Opening.{Opening, IsOpening, first_number, last_number};
ghost use Rattle.lama_model.specs.Journal.{begun, standing, newest, oldest, floor_at, graph, change, cut};
ghost use Rattle.lama_model.specs.Laws.{count_made};
ghost use Rattle.lama_model.specs.Pass.{Pass, StepsTo};
ghost use Rattle.lama_model.specs.declared.calls.Call.TheVariants.{Install};
ghost use Rattle.lama_model.specs.declared.calls.Call.{Call};
ghost use Rattle.lama_model.specs.declared.calls.Entry.{Entry};
ghost use Rattle.lama_model.specs.declared.calls.Write.{Write};

/// A snapshot above the opening's newest is what stood after the entries before its own checkpoint,
/// whatever came later, and the accepted checkpoints number the snapshots.
pub fn snapshots_are_prefixes()
    ensures prefix { (o : Opening) (journal : List Entry) (k : ℕ) → last_number o < k → k ≤ newest o journal →
        graph o journal k ≡ (standing o (cut o journal k)).graph }
    ensures numbers { (o : Opening) (journal : List Entry) → newest o journal ≡ last_number o + count_made o (begun o) journal }
{}

/// The change that writes make of a graph, done on its rows, gives the rows of the graph after the writes.
pub fn changes_make_rows()
    ensures { (g : Graph) (writes : List Write) (number v : ℕ) → v < (graph_after writes g).count →
        row_after (change_between g writes number).rows v (row g v) ≡ row (graph_after writes g) v }
{}

/// The changes from one number to a later one, done one after another on a row of the first graph, give that row of the
/// second. Before a vertex came its row is empty.
pub fn changes_lead_to_later_rows()
    ensures { (o : Opening) (journal : List Entry) (k n v : ℕ) → IsOpening o → first_number o ≤ k → k + n ≤ newest o journal →
        row_through (map (change o journal) (range_with_len (k + 1) n)) v (row (graph o journal k) v) ≡ row (graph o journal (k + n)) v }
{}

/// What stands under a number stays, however the journal goes on.
pub fn numbers_keep_their_graphs()
    ensures graphs { (o : Opening) (journal more : List Entry) (k : ℕ) → k ≤ newest o journal →
        graph o (journal ++ more) k ≡ graph o journal k }
    ensures changes { (o : Opening) (journal more : List Entry) (k : ℕ) → k ≤ newest o journal →
        change o (journal ++ more) k ≡ change o journal k }
{}

/// The newest number, the oldest one and every floor never fall, and an install changes no graph.
pub fn numbers_never_fall()
    ensures newest { (o : Opening) (journal more : List Entry) → newest o journal ≤ newest o (journal ++ more) }
    ensures oldest { (o : Opening) (journal more : List Entry) → oldest o journal ≤ oldest o (journal ++ more) }
    ensures floors { (o : Opening) (journal more : List Entry) (j : ℕ) → floor_at o journal j ≤ floor_at o (journal ++ more) j }
    ensures installs { (o : Opening) (journal : List Entry) (caller i k : ℕ) →
        graph o (journal ++ record { caller = caller; call = Install i } ∷ []) k ≡ graph o journal k }
{}

/// The level of a vertex is the least number of edges of a walk to it, and there is none where no walk leads to it.
pub fn levels_are_least_walks()
    ensures { (g : Graph) (s : ℕ) → IsGraph g → AreLevels g s (levels g s) }
{}

/// Graphs with the same rows have the same levels.
pub fn levels_are_of_rows()
    ensures { (g h : Graph) (s : ℕ) → AreSame g h → levels g s ≡ levels h s }
{}

/// The label of a vertex is the least one from which a walk leads to it that may take each edge in either direction, and
/// each vertex has one label, which names its component: the label of a label is that label itself.
pub fn labels_are_least_vertices()
    ensures are { (g : Graph) → IsGraph g → AreLabels g (labels g) }
    ensures only { (g : Graph) (ls : List ℕ) → IsGraph g → AreLabels g ls → ls ≡ labels g }
    ensures first { (g : Graph) → IsGraph g → AreFirst (labels g) }
{}

/// Graphs with the same rows have the same labels.
pub fn labels_are_of_rows()
    ensures { (g h : Graph) → IsGraph h → AreSame g h → labels g ≡ labels h }
{}

/// However many rounds there are, all ranks add up to no more than at first. So no sum on the way leaves 64 bits: of
/// 4,194,304 vertices they come to fewer than 2 ^ 42.
pub fn ranks_never_grow()
    ensures { (g : Graph) (i : ℕ) → IsGraph g → sum (ranks g i) ≤ g.count * 1000000 }
{}

/// Graphs with the same rows have the same ranks and as many edges, and the same numbers of them leave each vertex.
pub fn ranks_are_of_rows()
    ensures ranks { (g h : Graph) (i : ℕ) → IsGraph g → IsGraph h → AreSame g h → ranks g i ≡ ranks h i }
    ensures degrees { (g h : Graph) → AreSame g h → out_degrees g ≡ out_degrees h }
    ensures edges { (g h : Graph) → IsGraph g → IsGraph h → AreSame g h → length g.edges ≡ length h.edges }
{}

/// The distance of a vertex is the least cost of a walk to it, with the least vertex before it on such a walk, and there is
/// none where no walk leads to it. No other answer says so.
pub fn distances_are_least_costs()
    ensures are { (g : Graph) (s : ℕ) → IsGraph g → s < g.count → AreReached g s (distances g s) }
    ensures only { (g : Graph) (s : ℕ) (reach : List (Option Reach)) → IsGraph g → s < g.count → AreReached g s reach → reach ≡ distances g s }
{}

/// An answer that meets the certificate has the distances: what it says that a vertex costs is the least cost of a walk to
/// it, and where it says nothing no walk leads there.
pub fn certificates_tell_distances()
    ensures told { (rows : ℕ → List (ℕ × ℕ)) (count s v : ℕ) (reach : List (Option Reach)) (r : Reach) → LeadsBelow rows count → s < count →
        IsCertified rows count s reach → v < count → reach_at reach v ≡ Some r → IsDistance rows s v (cost_of r) }
    ensures untold { (rows : ℕ → List (ℕ × ℕ)) (count s v : ℕ) (reach : List (Option Reach)) (c : Cost) → LeadsBelow rows count → s < count →
        IsCertified rows count s reach → v < count → reach_at reach v ≡ None → ¬ HasRoute rows s v c }
{}

/// Graphs with the same rows have the same distances.
pub fn distances_are_of_rows()
    ensures { (g h : Graph) (s : ℕ) → AreSame g h → distances g s ≡ distances h s }
{}

/// A caller who is alone has made each call that the journal has from the start on.
pub fn one_caller_sees_its_own_calls()
    ensures { (v w : Pass) (call : Call) (place : ℕ) → v.caller ≡ 1 → StepsTo 1 v call place w → drop w.start w.seen ≡ w.own }
{}
