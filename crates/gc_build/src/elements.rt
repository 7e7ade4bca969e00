ghost use Rattle.std.specs.Prelude.{◌≡◌, ◌++◌, ◌∷◌, [], ℕ, List, OnOk};
ghost use Rattle.std.specs.Option.{option_copied, option_to_list};
ghost use Rattle.gc_build.specs.Claimed.{same_kind, claims_for, claims_of};
ghost use Rattle.gc_build.specs.Kept.{has_instance};
ghost use Rattle.gc_build.specs.Makers.{AreEndMakers};
ghost use Rattle.gc_build.specs.Makings.{Making as MakingSeen, descriptions_of};
ghost use Rattle.gc_build.specs.Standing.{has_kept};
ghost use Rattle.gc_build_descriptions.specs.Faults.{elements_of};
ghost use Rattle.gc_build_numbers.specs.declared.numbered.Element.{Element as ElementSeen};
ghost use Rattle.gc_build_recipe.specs.Places.{listed};
ghost use Rattle.gc_build_recipe.specs.declared.variable.Variable.{Variable as VariableSeen};
ghost use Rattle.gc_values.specs.Descriptions.{Description as DescriptionSeen};
ghost use Rattle.gc_ppg.specs.declared.shape.Kind.{Kind as KindSeen};

use crate::making::{EndMakers, Making, description_in};
use crate::standing::{Instances, Standing, is_claimed};
use gc_base::{Memory, Steps};
use gc_build_descriptions::Description;
use gc_build_numbers::Element;
use gc_build_recipe::Variable;
use gc_ppg::{EdgeInfo, Kind, NodeInfo, PathInfo};
use std::sync::ledger::Ledger;

/// Elements that are claimed, in any order and some of them several times.
#[derive(Debug, Drop)]
pub(crate) struct Claims {
    pub nodes: Vec<NodeInfo>,
    pub edges: Vec<EdgeInfo>,
    pub paths: Vec<PathInfo>,
}

/// What is claimed for elements of variables of one kind: nodes, edges or stored paths.
pub(crate) trait Claim {
    /// The kind of the variables.
    ghost kind: { KindSeen };

    /// What is claimed for an element of a variable.
    ghost claims: { MakingSeen → VariableSeen → ElementSeen → DescriptionSeen → List Self };

    // Whether a kind is that one.
    fn is_of(k: Kind) -> bool
        ensures { result ≡ same_kind k kind };

    // Adds what is claimed for an element of a variable, which stands between what these make.
    fn claim<L: Ledger>(
        claimed: &mut Vec<Self>,
        making: &Making<'_>,
        variable: &Variable,
        ends: &EndMakers<'_>,
        element: &Element,
        description: &Description,
        steps: &mut Steps<L>,
    ) -> Result<(), Memory>
        requires { AreEndMakers making.now variable.now.grouping ends.now }
        ensures { OnOk result (claimed.new.items ≡ claimed.old.items ++ claims making.now variable.now element.now description.now) };
}

/// Adds what is claimed for those of a variable's elements that kept instances have, where the
/// variable is of the kind.
pub(crate) fn claim_for<T: Claim + Drop, L: Ledger>(
    claimed: &mut Vec<T>,
    making: &Making<'_>,
    kept: &Instances<'_>,
    variable: &Variable,
    steps: &mut Steps<L>,
) -> Result<(), Memory>
    ensures { OnOk result (claimed.new.items ≡ claimed.old.items ++ claims_for making.now kept.now T.kind (T.claims making.now) variable.now) }
{
    if !T::is_of(variable.kind) {
        return Ok(());
    }
    claim_all(claimed, making, kept, variable, steps)
}

// Adds what is claimed for those of a variable's elements that kept instances have.
fn claim_all<T: Claim + Drop, L: Ledger>(
    claimed: &mut Vec<T>,
    making: &Making<'_>,
    kept: &Instances<'_>,
    variable: &Variable,
    steps: &mut Steps<L>,
) -> Result<(), Memory>
    ensures { OnOk result (claimed.new.items ≡ claimed.old.items
        ++ claims_of kept.now variable.now.var (T.claims making.now variable.now) (elements_of making.now.numbered variable.now.var) (descriptions_of making.now.described variable.now.var)) }
{
    let elements = making.elements(variable.var);
    let own = kept.of_variable(variable.var);
    let ends = making.end_makers(&variable.grouping);
    let described = making.described(variable.var);
    for (place, element) in elements.iter().enumerate() {
        let description = description_in(described, place);
        claim_one(
            claimed,
            making,
            kept,
            variable,
            own,
            &ends,
            element,
            description,
            steps,
        )?;
    }
    Ok(())
}

// Adds what is claimed for an element of a variable that is described so, if kept instances have it.
fn claim_one<T: Claim + Drop, L: Ledger>(
    claimed: &mut Vec<T>,
    making: &Making<'_>,
    kept: &Instances<'_>,
    variable: &Variable,
    own: Option<&Vec<&Standing<'_>>>,
    ends: &EndMakers<'_>,
    element: &Element,
    description: Option<&Description>,
    steps: &mut Steps<L>,
) -> Result<(), Memory>
    requires own { (place : ℕ) → has_kept place (listed (option_copied own)) ≡ has_instance kept.now variable.now.var place }
    requires ends { AreEndMakers making.now variable.now.grouping ends.now }
    ensures { OnOk result (claimed.new.items ≡ claimed.old.items
        ++ claims_of kept.now variable.now.var (T.claims making.now variable.now) (element.now ∷ []) (option_to_list (option_copied description.entry))) }
{
    let Some(description) = description else {
        return Ok(());
    };
    if is_claimed(kept, variable.var, own, element) {
        T::claim(claimed, making, variable, ends, element, description, steps)?;
    }
    Ok(())
}
