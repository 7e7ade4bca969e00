ghost use Rattle.std.specs.Prelude.{◌≡◌, ℕ, List, []};
ghost use Rattle.std.specs.List.{AllByRecursion};
ghost use Rattle.gc_alg.specs.Blocks.{IsRowOfBlock};
ghost use Rattle.gc_alg.specs.Tables.{IsTableOfBlock};
ghost use Rattle.gc_alg.specs.Trees.{ABlock, Tree};
ghost use Rattle.gc_build.specs.AllPaths.{Patterns};
ghost use Rattle.gc_build.specs.Constructed.{AreDue, IsBuilt};
ghost use Rattle.gc_build.specs.Fitting.{BindsNodes, Fits, FitsWhole};
ghost use Rattle.gc_build.specs.Linked.{HasLinksOf};
ghost use Rattle.gc_build.specs.declared.built.Built.{Built};
ghost use Rattle.gc_build_numbers.specs.Settings.{Setting};
ghost use Rattle.gc_build_recipe.specs.Recipes.{Recipe};
ghost use Rattle.gc_prod.specs.Segments.{Segments};
ghost use Rattle.gc_rows.specs.Tables.{Relation};
ghost use Rattle.gc_sets.specs.Agreed.{AreOfOneGraph};
ghost use Rattle.gc_sets.specs.Claims.{Claims};
ghost use Rattle.gc_sets.specs.Origins.{AreStanding, ComesFrom};
ghost use Rattle.gc_spec.specs.PropertyGraph.{IsGraph, PropertyGraph};
ghost use Rattle.gc_walks.specs.Databases.{AreOnGraphs, database};

/// The nodes for which the variables of a block stand in a row of its table are nodes of the graphs.
pub fn the_rows_of_a_block_bind_nodes_of_its_graphs()
    ensures { (graphs : List PropertyGraph) (segments : List Segments) (block : Tree ABlock) (table : Relation)
        → AllByRecursion IsGraph graphs → AreOnGraphs graphs segments
        → IsTableOfBlock (record { database = database graphs segments; block = block; given = [] }) table
        → AllByRecursion (BindsNodes graphs) table.rows }
{}

/// What is built on a table that the recipe fits comes from the graphs: each element of it has the identity,
/// kind, ends and walk of one of theirs, or a new identity.
pub fn what_is_built_comes_from_the_graphs()
    ensures { (s : Setting) (r : Recipe) (ps : Patterns) (next : ℕ) (b : Built) → Fits s r → IsBuilt s r ps next b
        → ComesFrom s.graphs next b.next b.graph }
{}

/// What is claimed on a table that the recipe fits is of one graph: an identity is claimed as one kind with one
/// shape, the ends of each edge are claimed, and so is what the walk of each stored path goes along.
pub fn what_is_claimed_where_a_recipe_fits_is_of_one_graph()
    ensures { (s : Setting) (r : Recipe) (ps : Patterns) (next : ℕ) (c : Claims) → FitsWhole s r ps next → AreOnGraphs s.graphs ps.segments
        → AreDue s r ps next c → AreOfOneGraph c }
{}

/// A recipe fits the rows of a block whole where its links are those of the block: where the graphs stand together,
/// an edge that the MATCH binds stands between the nodes between which a pattern of the MATCH has it, the ends of a new edge
/// are nodes of its chain, and walks are read on the graph on which their pattern stands.
pub fn a_recipe_with_the_links_of_its_block_fits_whole()
    ensures { (s : Setting) (r : Recipe) (ps : Patterns) (next : ℕ) → Fits s r → AreStanding s.graphs next → AreOnGraphs s.graphs ps.segments
        → AllByRecursion (IsRowOfBlock (database s.graphs ps.segments) [] ps.block) s.rows → AllByRecursion (λ read. read.own ≡ read.walk) s.reads
        → HasLinksOf ps.block s.reads r → FitsWhole s r ps next }
{}
