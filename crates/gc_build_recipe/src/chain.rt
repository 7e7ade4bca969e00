use gc_expr::Expr;
use gc_rows::SymList;
use std::marker::Model;

/// A construct chain, which has one instance for each row.
#[derive(Debug, Drop)]
pub struct Chain {
    /// The variables of its nodes, edges and stored paths.
    pub places: SymList,
    /// The paths of the MATCH of which it takes the nodes and edges alone.
    pub projected: SymList,
    /// The condition after WHEN.
    pub condition: Option<Expr>,
}

impl Model for Chain {
    ghost use Rattle.std.specs.Option.{option_map};
    ghost use Rattle.gc_expr.specs.Views.{numbered_expr};
    ghost use Rattle.gc_build_recipe.specs.Recipes.{Chain, chain_code};

    ghost Value = { Chain };

    ghost coded = { chain_code };

    ghost view = { λ c. record { places = c.places; projected = c.projected; condition = option_map numbered_expr c.condition } };
}

/// Construct chains, in the order of the text.
pub type ChainList = Vec<Chain>;
