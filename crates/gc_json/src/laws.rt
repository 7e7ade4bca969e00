ghost use Rattle.std.specs.Prelude.{◌≡◌, ◌≤◌, true, Some, Ok};
ghost use Rattle.serde_json.specs.Read.{read};
ghost use Rattle.gc_spec.specs.PropertyGraph.{PropertyGraph, IsGraph};
ghost use Rattle.gc_ppg.specs.Shapes.{graph_agrees};
ghost use Rattle.gc_json.specs.CanonicalText.{canonical_text, element_count, graph_data};
ghost use Rattle.gc_json.specs.FileElements.{Seen};
ghost use Rattle.gc_json.specs.GraphFiles.{file_graph};

/// The canonical text of every valid graph, read as JSON, is its data again.
pub fn canonical_texts_read_back()
    ensures { (g : PropertyGraph) → IsGraph g → read (canonical_text g) ≡ Some (graph_data g) }
{}

/// The canonical text of every valid graph of at most 1,000,000 elements that agrees with the
/// graphs of earlier files is a graph file of that very graph.
pub fn canonical_texts_load_back()
    ensures { (seen : Seen) (g : PropertyGraph) → IsGraph g → element_count g ≤ 1000000 → graph_agrees seen g ≡ true → file_graph seen (canonical_text g) ≡ Ok g }
{}
