ghost use Rattle.std.specs.Prelude.{◌≡◌, ◌↔◌, Bool, true, List};
ghost use Rattle.gc_base.specs.declared.place.Sym.{Sym};
ghost use Rattle.gc_rows.specs.Rows.{IsRow, datum_at};
ghost use Rattle.gc_rows.specs.declared.row.Binding.{Binding};
ghost use Rattle.gc_values.specs.declared.reads.ReadUse.{ReadUse};
ghost use Rattle.gc_alg.specs.Blocks.{AreAnswers, IsRowOfBlock, IsTrue};
ghost use Rattle.gc_alg.specs.Matches.{IsRowOf, Setting, text_tree};
ghost use Rattle.gc_alg.specs.Mentions.{in_conjunct};
ghost use Rattle.gc_alg.specs.Networks.{Database};
ghost use Rattle.gc_alg.specs.Plans.{AreAnswersOf, EachMeans, PlanRow};
ghost use Rattle.gc_alg.specs.Trees.{AConjunct, AnExists, RowOf, Tree};

/// The tree of a block in the order of the text means exactly the rows of the block.
pub fn the_tree_in_text_order_means_its_block()
    ensures { (s : Setting) → IsRow s.given
        → (row : List Binding) → IsRowOf s (text_tree s.block) row ↔ IsRowOfBlock s.database s.given s.block row }
{}

/// Plans that mean their EXISTS blocks give exactly the answers that the blocks have.
pub fn plans_that_mean_their_blocks_answer_as_they_do()
    ensures { (db : Database) (plans : PlanRow) (queries : Tree (RowOf AnExists)) → EachMeans db plans queries
        → (row : List Binding) → IsRow row → (answers : List Bool) → AreAnswersOf db plans row queries answers ↔ AreAnswers db row queries answers }
{}

/// A conjunct is true on a row where it is true on another that has the same data at the variables in it.
pub fn a_conjunct_hangs_on_the_variables_in_it()
    ensures { (db : Database) (reads : List ReadUse) (row other : List Binding) → IsRow row → IsRow other → (c : Tree AConjunct)
        → ((x : Sym) → in_conjunct x c ≡ true → datum_at row x ≡ datum_at other x)
        → IsTrue db reads row c → IsTrue db reads other c }
{}
