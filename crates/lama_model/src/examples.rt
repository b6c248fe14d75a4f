//! Worked examples of the definitions, each proved by computing both sides.

ghost use Rattle.std.specs.Prelude.{◌≡◌, ℕ, List, [], ◌∷◌, ◌++◌, codes, Some, None, map, length};
ghost use Rattle.lama_base.specs.declared.Edge.{Edge};
ghost use Rattle.lama_model.specs.Graph.{Graph, effect};
ghost use Rattle.lama_model.specs.Row.{row, graph_of_rows};
ghost use Rattle.lama_model.specs.Opening.{empty_opening};
ghost use Rattle.lama_model.specs.Journal.{reply, newest, oldest, floor_at, floor, graph, cut, before_made, standing, begun};
ghost use Rattle.lama_model.specs.Weave.{weave};
ghost use Rattle.lama_model.specs.Text.{text, entry};
ghost use Rattle.lama_model.specs.declared.calls.Write.TheVariants.{Vertices, Add, Remove, Weigh};
ghost use Rattle.lama_model.specs.declared.calls.Call.TheVariants.{Write as Writes, Checkpoint, Look, LookAt, Install, Retire};
ghost use Rattle.lama_model.specs.declared.answers.Reply.TheVariants.{Accepted, Count, Snapshot, Kept, Refused};
ghost use Rattle.lama_model.specs.declared.answers.Refusal.TheVariants.{UnknownVertex, FullVertices, NoSnapshot};
ghost use Rattle.lama_model.specs.Examples.{busy, edge};

/// Runs of scripts, and the lines that they print.
pub fn texts()
    ensures first { text empty_opening (codes "vertices 3\nadd 0 1\nadd 0 2\ncheckpoint\nrow 0\n")
        ≡ codes "vertices 3\nsnapshot 1\nrow 1 0 : 2/1 1/1\nend 5\n" }
    ensures empty { text empty_opening [] ≡ codes "end 0\n" }
    // A write is read from the next checkpoint on.
    ensures pending { text empty_opening (codes "vertices 2\ncheckpoint\nadd 0 1\nrow 0\n")
        ≡ codes "vertices 2\nsnapshot 1\nrow 1 0 :\nend 4\n" }
    // A deletion takes all edges between its vertices, and what is added after it stays.
    ensures deleted { text empty_opening (codes "vertices 2\nadd 0 0\nadd 0 1\nadd 0 1\ndel 0 1\nadd 0 1 7\ncheckpoint\nrow 0\n")
        ≡ codes "vertices 2\nsnapshot 1\nrow 1 0 : 1/7 0/1\nend 8\n" }
    ensures weighed { text empty_opening (codes "vertices 2\nadd 0 1\nadd 1 0 3\nadd 0 1\nweigh 0 1 9\nadd 0 1 2\ncheckpoint\nedges\n@0 edges\n")
        ≡ codes "vertices 2\nsnapshot 1\nedges 1 4\n0 1 2\n0 1 9\n0 1 9\n1 0 3\nedges 0 0\nend 9\n" }
    // A bad line ends the run, and what stands after it decides nothing.
    ensures bad { text empty_opening (codes "# a note\n\nvertices 007 \r\n vertices\tx\nvertices 1\n") ≡ codes "vertices 7\nbad line 4\n" }
    ensures refused { text empty_opening (codes "vertices 1\nadd 5 6\nadd 0 2\nrow 9\nvertices 4194304") ≡
        codes "vertices 1\nunknown vertex 5 of 1\nunknown vertex 2 of 1\nunknown vertex 9 of 0\nfull vertices\nend 5\n" }
{}

/// What is read of a whole graph: levels, labels and ranks, each vertex a line or summed up, and how many edges leave
/// vertices.
pub fn analyses()
    ensures path { text empty_opening (codes "vertices 5\nadd 0 1\nadd 1 2\nadd 2 3\ncheckpoint\nbfs 0\nbfs 0 sum\nlabels\nlabels sum\n")
        ≡ codes "vertices 5\nsnapshot 1\nbfs 1 0\n0 0\n1 1\n2 2\n3 3\n4 -\nbfs 1 0 sum 4 3 6\nlabels 1 2\n0 0\n1 0\n2 0\n3 0\n4 4\nlabels 1 sum 2 4 4\nend 9\n" }
    // A walk goes along the edges alone, and a component in either direction: {0, 3}, {1} and {2, 4, 5}.
    ensures ways { text empty_opening (codes "vertices 6\nadd 5 4\nadd 4 2\nadd 3 0\ncheckpoint\nbfs 5 sum\nbfs 2 sum\nlabels sum\n@0 bfs 0\n@0 labels\n@0 labels sum\n")
        ≡ codes "vertices 6\nsnapshot 1\nbfs 1 5 sum 3 2 3\nbfs 1 2 sum 1 0 0\nlabels 1 sum 3 3 7\nunknown vertex 0 of 0\nlabels 0 0\nlabels 0 sum 0 0 0\nend 11\n" }
    // Of two walks the shorter one counts, and an edge that was deleted is in the older snapshot alone.
    ensures shorter { text empty_opening (codes "vertices 4\nadd 0 1\nadd 1 2\nadd 2 3\nadd 0 3\ncheckpoint\ndel 0 3\ncheckpoint\n@1 bfs 0 sum\nbfs 0 sum\nbfs 4\n")
        ≡ codes "vertices 4\nsnapshot 1\nsnapshot 2\nbfs 1 0 sum 4 2 4\nbfs 2 0 sum 4 3 6\nunknown vertex 4 of 4\nend 11\n" }
    ensures ranks { text empty_opening (codes "vertices 3\nadd 0 1\nadd 0 2\nadd 1 2\ncheckpoint\nrank 1\nrank 2 sum\nrank 0 sum\n")
        ≡ codes "vertices 3\nsnapshot 1\nrank 1 1\n0 150000\n1 575000\n2 1425000\nrank 1 2 sum 1066250 2 702500\nrank 1 0 sum 3000000 0 1000000\nend 8\n" }
    // Each of three edges hands on a third, rounded down.
    ensures thirds { text empty_opening (codes "vertices 2\nadd 0 1\nadd 0 1\nadd 0 1\ncheckpoint\nrank 1\n")
        ≡ codes "vertices 2\nsnapshot 1\nrank 1 1\n0 150000\n1 999999\nend 6\n" }
    // The greatest out-degree, and the vertices without out-edges. Without vertices no rank is the greatest.
    ensures degrees { text empty_opening (codes "vertices 5\nadd 0 1\nadd 1 2\nadd 2 3\nadd 2 2\ncheckpoint\ndegrees\n@0 degrees\n@0 rank 0 sum\n@0 rank 3\nrank 101\n")
        ≡ codes "vertices 5\nsnapshot 1\ndegrees 1 5 4 2 2\ndegrees 0 0 0 0 0\nrank 0 0 sum 0 - 0\nrank 0 3\nbad line 11\n" }
{}

/// What the cheapest walks cost, with how many edges and which vertex before each, or summed up.
pub fn cheapest_walks()
    // Of two walks of one sum the one with fewer edges counts.
    ensures hours { text empty_opening (codes "vertices 4\nadd 0 1 5\nadd 0 2 1\nadd 2 1 4\nadd 1 3 0\ncheckpoint\ndist 0\ndist 0 sum\n")
        ≡ codes "vertices 4\nsnapshot 1\ndist 1 0\n0 0 0 0\n1 5 1 0\n2 1 1 0\n3 5 2 1\ndist 1 0 sum 4 5 11\nend 8\n" }
    // The lightest of parallel edges counts, and of two vertices that lead to one the lesser is its parent.
    ensures parents { text empty_opening (codes "vertices 5\nadd 0 2 2\nadd 0 2 1\nadd 0 1 1\nadd 2 3 3\nadd 1 3 3\nadd 3 3 0\ncheckpoint\n@0 dist 0\ndist 5\ndist 0\n")
        ≡ codes "vertices 5\nsnapshot 1\nunknown vertex 0 of 0\nunknown vertex 5 of 5\ndist 1 0\n0 0 0 0\n1 1 1 0\n2 1 1 0\n3 4 2 1\n4 -\nend 11\n" }
    // A sum may be greater than any weight.
    ensures wide { text empty_opening (codes "vertices 4\nadd 0 1 4294967295\nadd 1 2 4294967295\ncheckpoint\ndist 0\n")
        ≡ codes "vertices 4\nsnapshot 1\ndist 1 0\n0 0 0 0\n1 4294967295 1 0\n2 8589934590 2 1\n3 -\nend 5\n" }
{}

/// What is told of earlier graphs, and what a retirement lets go.
pub fn earlier_graphs()
    // An edge that was deleted is in the graphs before, and each snapshot tells those up to its own number.
    ensures as_of { text empty_opening (codes "vertices 3\nadd 0 1\ncheckpoint\nadd 0 2\ncheckpoint\ndel 0 1\ncheckpoint\nasof 2 0\nasof 3 0\nasof 1 0\nasof 0 0\nasof 4 0\nasof 1 3\n@1 asof 2 0\n@2 asof 1 0\n")
        ≡ codes "vertices 3\nsnapshot 1\nsnapshot 2\nsnapshot 3\nasof 3 2 0 : 2 1\nasof 3 3 0 : 2\nasof 3 1 0 : 1\nasof 3 0 0 :\nno snapshot 4 of 0 3\nunknown vertex 3 of 3\nno snapshot 2 of 0 1\nasof 2 1 0 : 1\nend 15\n" }
    ensures retired { text empty_opening (codes "checkpoint\ncheckpoint\ncheckpoint\ncheckpoint\nretire 3\n@2 row 0\nretire 9\n")
        ≡ codes "snapshot 1\nsnapshot 2\nsnapshot 3\nsnapshot 4\nkept 3 4\nno snapshot 2 of 3 4\nno snapshot 9 of 3 4\nend 7\n" }
    // A merge raises the floor, and changes no snapshot.
    ensures merged { text empty_opening (codes "vertices 3\nadd 0 1\ncheckpoint\nadd 0 2\ncheckpoint\nmerge\ndel 0 1\ncheckpoint\nasof 2 0\nasof 1 0\nasof 3 0\n")
        ≡ codes "vertices 3\nsnapshot 1\nsnapshot 2\nmerged 2\nsnapshot 3\nasof 3 2 0 : 2 1\nno snapshot 1 of 2 3\nasof 3 3 0 : 2\nend 12\n" }
    // A vertex that came later has no edges then. A retirement leaves the floor, so older graphs are still told.
    ensures still_told { text empty_opening (codes "vertices 1\nadd 0 0 4\ncheckpoint\nvertices 1\nadd 0 1\nadd 1 0\ncheckpoint\nretire 2\nasof 1 1\nasof 1 0\nasof 1\n")
        ≡ codes "vertices 1\nsnapshot 1\nvertices 2\nsnapshot 2\nkept 2 2\nasof 2 1 1 :\nasof 2 1 0 : 0\nbad line 11\n" }
{}

/// Three snapshots of two vertices: graphs, numbers, floors and prefixes of their journal.
pub fn journals()
    ensures graphs { map (λ k. row (graph empty_opening busy k) 0) (0 ∷ 1 ∷ 2 ∷ 3 ∷ [])
        ≡ [] ∷ ((1, 5) ∷ []) ∷ ((1, 9) ∷ (1, 9) ∷ []) ∷ [] ∷ [] }
    ensures numbers { (newest empty_opening busy ∷ oldest empty_opening busy ∷ floor empty_opening busy ∷ []) ≡ 3 ∷ 0 ∷ 1 ∷ [] }
    // Snapshot 0 keeps its floor, since an install reaches the later ones alone.
    ensures floors { map (floor_at empty_opening busy) (0 ∷ 1 ∷ 2 ∷ 3 ∷ []) ≡ 0 ∷ 1 ∷ 1 ∷ 1 ∷ [] }
    // The graph of a number is that of the prefix before its checkpoint.
    ensures prefixes { map (λ k. length (cut empty_opening busy k)) (1 ∷ 2 ∷ 3 ∷ []) ≡ 2 ∷ 5 ∷ 8 ∷ [] }
    ensures standing_edges { (standing empty_opening busy).graph.edges ≡ [] }
{}

/// Replies after that journal, each refusal with what it names.
pub fn replies()
    ensures vertices { reply empty_opening busy (Writes (Vertices 3)) ≡ Count 5 }
    ensures full { reply empty_opening busy (Writes (Vertices 4194303)) ≡ Refused FullVertices }
    // The first vertex is refused before the second.
    ensures source_first { reply empty_opening busy (Writes (Add 7 8 1)) ≡ Refused (UnknownVertex 7 2) }
    ensures target { reply empty_opening busy (Writes (Weigh 1 2 1)) ≡ Refused (UnknownVertex 2 2) }
    // What removes no edge is accepted all the same.
    ensures nothing_there { reply empty_opening busy (Writes (Remove 1 1)) ≡ Accepted }
    ensures checkpoint { reply empty_opening busy Checkpoint ≡ Snapshot 4 }
    ensures look { reply empty_opening busy Look ≡ Snapshot 3 }
    ensures look_at { reply empty_opening busy (LookAt 4) ≡ Refused (NoSnapshot 4 0 3) }
    ensures retire { reply empty_opening busy (Retire 2) ≡ Kept 2 3 }
    ensures retired { reply empty_opening (busy ++ entry 0 (Retire 2) ∷ []) (Install 1) ≡ Refused (NoSnapshot 1 2 3) }
{}

/// Three lanes woven by a list of lane numbers, and graphs from rows.
pub fn weaves_and_rows()
    ensures woven { weave {A = ℕ} ((4 ∷ 5 ∷ []) ∷ [] ∷ (6 ∷ []) ∷ []) (1 ∷ 3 ∷ 1 ∷ []) ≡ Some ((1, 4) ∷ (3, 6) ∷ (1, 5) ∷ []) }
    ensures left_over { weave {A = ℕ} ((4 ∷ 5 ∷ []) ∷ []) (1 ∷ []) ≡ None }
    ensures no_lane { weave {A = ℕ} ((4 ∷ []) ∷ []) (1 ∷ 2 ∷ []) ≡ None }
    ensures none_next { weave {A = ℕ} ((4 ∷ []) ∷ []) (1 ∷ 1 ∷ []) ≡ None }
    ensures from_rows { graph_of_rows (((2, 7) ∷ (1, 8) ∷ []) ∷ [] ∷ ((0, 9) ∷ []) ∷ [])
        ≡ record { count = 3; edges = edge 0 1 8 ∷ edge 0 2 7 ∷ edge 2 0 9 ∷ [] } }
    ensures newest_first { row (record { count = 2; edges = edge 0 1 5 ∷ edge 1 1 3 ∷ edge 0 0 6 ∷ [] }) 0 ≡ (0, 6) ∷ (1, 5) ∷ [] }
{}
