ghost use Rattle.gc_ppg.specs.declared.shape.Kind.TheVariants.{Node as NodeKind};
ghost use Rattle.gc_build.specs.Claimed.{node_claims};

use crate::elements::Claim;
use crate::making::{EndMakers, Making};
use gc_base::{Duplicate, Memory, Steps};
use gc_build_descriptions::Description;
use gc_build_numbers::Element;
use gc_build_recipe::Variable;
use gc_ppg::{Kind, NodeInfo};
use std::sync::ledger::Ledger;

impl Claim for NodeInfo {
    ghost kind = { NodeKind };

    ghost claims = { node_claims };

    fn is_of(k: Kind) -> bool {
        match k {
            Kind::Node => true,
            Kind::Edge => false,
            Kind::Path => false,
        }
    }

    fn claim<L: Ledger>(
        claimed: &mut Vec<NodeInfo>,
        making: &Making<'_>,
        variable: &Variable,
        _ends: &EndMakers<'_>,
        element: &Element,
        description: &Description,
        _steps: &mut Steps<L>,
    ) -> Result<(), Memory> {
        claimed.push(NodeInfo {
            id: making.identity(&variable.grouping, element.number)?,
            labels: description.labels.copy()?,
            properties: description.properties.copy()?,
        })?;
        Ok(())
    }
}
