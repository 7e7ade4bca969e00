ghost use Rattle.std.specs.Prelude.{◌≡◌, Bool, true, List};
ghost use Rattle.gc_base.specs.declared.place.Sym.{Sym};
ghost use Rattle.gc_expr.specs.Trees.{AnExpr, TreeOf};
ghost use Rattle.gc_rows.specs.Rows.{datum_at};
ghost use Rattle.gc_rows.specs.declared.row.Binding.{Binding};
ghost use Rattle.gc_values.specs.Contexts.{Context};
ghost use Rattle.gc_values.specs.ExprTruths.{truth_of};
ghost use Rattle.gc_values.specs.Mentions.{mentions};

/// The truth of a condition is the same on two rows that have the same data at the variables in it.
pub fn the_truth_of_a_condition_hangs_on_the_variables_in_it()
    ensures { (ctx : Context) (row : List Binding) (answers : List Bool) (condition : TreeOf Sym AnExpr)
        → ((x : Sym) → mentions x condition ≡ true → datum_at ctx.row x ≡ datum_at row x)
        → truth_of ctx answers condition ≡ truth_of (record ctx { row = row }) answers condition }
{}
