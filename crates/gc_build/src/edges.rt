ghost use Rattle.std.specs.Prelude.{◌≡◌, IfOk, slice_get, unwrap_or};
ghost use Rattle.std.specs.Option.{option_and_then, option_map};
ghost use Rattle.gc_ppg.specs.declared.shape.Kind.TheVariants.{Edge as EdgeKind};
ghost use Rattle.gc_spec.specs.PropertyGraph.{edge_at};
ghost use Rattle.gc_build.specs.Claimed.{along_edge, both_ends, edge_claims, ends_by};
ghost use Rattle.gc_build.specs.Makers.{AreEndMakers, IsMaker};
ghost use Rattle.gc_build.specs.Makings.{identity_at};
ghost use Rattle.gc_build.specs.Walks.{read_graph};

use crate::elements::Claim;
use crate::making::{EndMakers, Making};
use gc_base::{Duplicate, Id, Memory, Steps, Sym};
use gc_build_descriptions::Description;
use gc_build_numbers::Element;
use gc_build_recipe::{Grouping, Variable};
use gc_ppg::{EdgeInfo, Kind};
use std::marker::Model;
use std::sync::ledger::Ledger;

impl Claim for EdgeInfo {
    ghost kind = { EdgeKind };

    ghost claims = { edge_claims };

    fn is_of(k: Kind) -> bool {
        match k {
            Kind::Node => false,
            Kind::Edge => true,
            Kind::Path => false,
        }
    }

    fn claim<L: Ledger>(
        claimed: &mut Vec<EdgeInfo>,
        making: &Making<'_>,
        variable: &Variable,
        ends: &EndMakers<'_>,
        element: &Element,
        description: &Description,
        steps: &mut Steps<L>,
    ) -> Result<(), Memory> {
        let id = making.identity(&variable.grouping, element.number)?;
        if let Some(ends) = element_ends(making, variable, ends, element, steps)? {
            claimed.push(EdgeInfo {
                id,
                from: ends.from,
                to: ends.to,
                labels: description.labels.copy()?,
                properties: description.properties.copy()?,
            })?;
        }
        Ok(())
    }
}

// The ends of an edge.
#[derive(Drop)]
struct Ends {
    from: Id,
    to: Id,
}

impl Model for Ends {
    ghost use Rattle.gc_build.specs.Claimed.{Ends};

    ghost Value = { Ends };

    ghost view = { λ e. record { from = e.from; to = e.to } };
}

// The ends of an element of an edge variable: a bound one has those that its graph tells.
fn element_ends<L: Ledger>(
    making: &Making<'_>,
    variable: &Variable,
    ends: &EndMakers<'_>,
    element: &Element,
    steps: &mut Steps<L>,
) -> Result<Option<Ends>, Memory>
    requires { AreEndMakers making.now variable.now.grouping ends.now }
    ensures { IfOk result (λ ends. ends ≡ ends_by making.now variable.now.var variable.now.grouping element.now) }
{
    match &variable.grouping {
        Grouping::Bound => {
            let id = making.identity(&variable.grouping, element.number)?;
            Ok(graph_ends(making, variable.var, id, steps))
        }
        Grouping::Link {
            source,
            target,
            terms: _,
        } => row_ends(making, *source, *target, ends, element),
        Grouping::EachRow | Grouping::Walk | Grouping::Terms(_) => Ok(None),
    }
}

// The ends of an edge in the graph in which a variable is read.
fn graph_ends<L: Ledger>(
    making: &Making<'_>,
    var: Sym,
    id: Id,
    steps: &mut Steps<L>,
) -> Option<Ends>
    ensures { result ≡ option_map along_edge (option_and_then (λ g. edge_at g.edges id) (read_graph making.now.setting var)) }
{
    let graph = making.read_graph(var)?;
    let edge = graph.find_edge(id, steps)?;
    Some(Ends {
        from: edge.from,
        to: edge.to,
    })
}

// What the first row of an element's group makes of the variables at its ends.
fn row_ends(
    making: &Making<'_>,
    source: Sym,
    target: Sym,
    ends: &EndMakers<'_>,
    element: &Element,
) -> Result<Option<Ends>, Memory>
    requires source { IsMaker making.now source ends.now.source }
    requires target { IsMaker making.now target ends.now.target }
    ensures { IfOk result (λ ends. ends ≡ both_ends (identity_at making.now source (unwrap_or (slice_get element.now.group.rows 0) 0))
        (identity_at making.now target (unwrap_or (slice_get element.now.group.rows 0) 0))) }
{
    let place = first_row(element);
    let from = making.identity_by_maker(source, &ends.source, place)?;
    let to = making.identity_by_maker(target, &ends.target, place)?;
    match (from, to) {
        (Some(from), Some(to)) => Ok(Some(Ends { from, to })),
        _ => Ok(None),
    }
}

// The place of the first row of a group.
fn first_row(element: &Element) -> usize
    ensures { result ≡ unwrap_or (slice_get element.now.group.rows 0) 0 }
{
    match element.group.rows.as_slice().first() {
        None => 0,
        Some(row) => *row as usize,
    }
}
