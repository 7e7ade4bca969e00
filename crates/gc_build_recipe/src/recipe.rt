use crate::chain::ChainList;
use crate::change::{AssignmentList, LabelOfList, PropertyOfList};
use crate::variable::VariableList;
use gc_base::Sequence;
use std::marker::Model;

/// What a CONSTRUCT asks to be made.
#[derive(Debug, Drop)]
pub struct Recipe {
    pub variables: VariableList,
    /// Labels that are added, those of SET among them.
    pub labels: LabelOfList,
    pub assignments: AssignmentList,
    /// Labels that REMOVE takes away, after all else.
    pub lost_labels: LabelOfList,
    /// Properties that REMOVE takes away, after all else.
    pub lost_properties: PropertyOfList,
    pub chains: ChainList,
    /// The graphs that are items.
    pub graphs: GraphNumbers,
}

impl Model for Recipe {
    ghost use Rattle.gc_build_recipe.specs.Recipes.{Recipe, recipe_code};

    ghost Value = { Recipe };

    ghost coded = { recipe_code };

    ghost view = { λ r. record {
      variables = r.variables;
      labels = r.labels;
      assignments = r.assignments.items;
      lost_labels = r.lost_labels;
      lost_properties = r.lost_properties;
      chains = r.chains.items;
      graphs = r.graphs;
    } };
}

/// Graphs by number.
pub type GraphNumbers = Sequence<u32>;
