ghost use Rattle.std.specs.Prelude.{◌≡◌, None};
ghost use Rattle.std.specs.Option.{option_copied};
ghost use Rattle.gc_expr.specs.Views.{numbered_expr};
ghost use Rattle.gc_values.specs.Descriptions.{node_description, edge_description, path_description, described_in, description_made, variable_described, value_described, expr_described, property_of, label_truth, values_seen};
ghost use Rattle.gc_values.specs.References.{literals_seen, value_seen};

use crate::context::Context;
use crate::literals::Literals;
use crate::reads::Made;
use crate::truth3::Truth3;
use crate::val::Why;
use crate::val_ref::ValRef;
use gc_base::{Id, LabelSet, Name, Properties, Steps, Sym};
use gc_expr::{Expr, ExprNode};
use gc_ppg::Graph;
use gc_rows::Datum;
use std::marker::Model;
use std::sync::ledger::Ledger;

/// The labels and properties that are read of an element.
#[derive(Drop)]
pub(crate) struct Described<'a> {
    pub labels: &'a LabelSet,
    pub properties: &'a Properties,
}

impl<'a> Model for Described<'a> {
    ghost use Rattle.gc_values.specs.Descriptions.{Description};

    ghost Value = { Description };

    ghost view = { λ d. record { labels = d.labels.now; properties = d.properties.now } };
}

/// What stands before a dot or a colon: undefined for a reason, or what is described.
pub(crate) type Seen<'a> = Result<Option<Described<'a>>, Why>;

// A node of a graph.
fn node_described<'a, L: Ledger>(
    graph: Option<&'a Graph>,
    id: Id,
    steps: &mut Steps<L>,
) -> Option<Described<'a>>
    ensures { result ≡ node_description (option_copied graph.entry) id }
{
    match graph?.find_node(id, steps) {
        Some(node) => Some(Described {
            labels: &node.labels,
            properties: &node.properties,
        }),
        None => None,
    }
}

// An edge of a graph.
fn edge_described<'a, L: Ledger>(
    graph: Option<&'a Graph>,
    id: Id,
    steps: &mut Steps<L>,
) -> Option<Described<'a>>
    ensures { result ≡ edge_description (option_copied graph.entry) id }
{
    match graph?.find_edge(id, steps) {
        Some(edge) => Some(Described {
            labels: &edge.labels,
            properties: &edge.properties,
        }),
        None => None,
    }
}

// A stored path of a graph.
fn path_described<'a, L: Ledger>(
    graph: Option<&'a Graph>,
    id: Id,
    steps: &mut Steps<L>,
) -> Option<Described<'a>>
    ensures { result ≡ path_description (option_copied graph.entry) id }
{
    match graph?.find_path(id, steps) {
        Some(path) => Some(Described {
            labels: &path.labels,
            properties: &path.properties,
        }),
        None => None,
    }
}

// What a variable stands for, in a graph.
fn datum_described<'a, L: Ledger>(
    graph: Option<&'a Graph>,
    datum: Option<&Datum>,
    steps: &mut Steps<L>,
) -> Seen<'a>
    ensures { result ≡ described_in (option_copied graph.entry) (option_copied datum.entry) }
{
    match datum {
        Some(Datum::Node(id)) => Ok(node_described(graph, *id, steps)),
        Some(Datum::Edge(id)) => Ok(edge_described(graph, *id, steps)),
        Some(Datum::Stored(id)) => Ok(path_described(graph, *id, steps)),
        Some(Datum::PastRange) => Err(Why::Overflow),
        _ => Ok(None),
    }
}

// A variable of the CONSTRUCT.
fn made_described(made: &Made) -> Option<Described<'_>>
    ensures { result ≡ description_made made.now }
{
    match &made.datum {
        Some(_) => Some(Described {
            labels: &made.labels,
            properties: &made.properties,
        }),
        None => None,
    }
}

/// A variable.
pub(crate) fn variable_described<'a, L: Ledger>(
    context: &'a Context<'_>,
    var: Sym,
    steps: &mut Steps<L>,
) -> Seen<'a>
    ensures { result ≡ variable_described context.now var }
{
    match context.made_of(var) {
        Some(made) => Ok(made_described(made)),
        None => datum_described(context.own_graph(var), context.row.get(var), steps),
    }
}

#[tactic(auto, unfolding(gc_expr::specs::Views::numbered_expr, gc_expr::specs::Views::numbered_node))]
/// An expression that has a value.
pub(crate) fn expr_described<'a, L: Ledger>(
    context: &'a Context<'_>,
    expr: &Expr,
    value: &ValRef<'_>,
    steps: &mut Steps<L>,
) -> Seen<'a>
    ensures { result ≡ expr_described context.now (numbered_expr expr.now) (value_seen value.now) }
{
    match &expr.node {
        ExprNode::Var(var) => variable_described(context, *var, steps),
        ExprNode::NodeAt(path, _) => node_value_described(context.walk_graph(*path), value, steps),
        ExprNode::EdgeAt(path, _) => edge_value_described(context.walk_graph(*path), value, steps),
        _ => nothing_described(value),
    }
}

// A node of a graph as a value.
fn node_value_described<'a, L: Ledger>(
    graph: Option<&'a Graph>,
    value: &ValRef<'_>,
    steps: &mut Steps<L>,
) -> Seen<'a>
    ensures { result ≡ value_described (node_description (option_copied graph.entry)) (value_seen value.now) }
{
    match value {
        ValRef::Undefined(why) => Err(*why),
        ValRef::Element(id) => Ok(node_described(graph, *id, steps)),
        ValRef::Set(_) | ValRef::Walked => Ok(None),
    }
}

// An edge of a graph as a value.
fn edge_value_described<'a, L: Ledger>(
    graph: Option<&'a Graph>,
    value: &ValRef<'_>,
    steps: &mut Steps<L>,
) -> Seen<'a>
    ensures { result ≡ value_described (edge_description (option_copied graph.entry)) (value_seen value.now) }
{
    match value {
        ValRef::Undefined(why) => Err(*why),
        ValRef::Element(id) => Ok(edge_described(graph, *id, steps)),
        ValRef::Set(_) | ValRef::Walked => Ok(None),
    }
}

// A value that has no labels and properties.
fn nothing_described<'a>(value: &ValRef<'_>) -> Seen<'a>
    ensures { result ≡ value_described (λ id. None) (value_seen value.now) }
{
    match value {
        ValRef::Undefined(why) => Err(*why),
        ValRef::Element(_) | ValRef::Set(_) | ValRef::Walked => Ok(None),
    }
}

/// The set of a property, which is empty where it is not there.
pub(crate) fn property_of<'a>(seen: Seen<'a>, name: &Name) -> ValRef<'a>
    ensures { value_seen result ≡ property_of seen.entry name.now }
{
    match seen {
        Err(why) => ValRef::Undefined(why),
        Ok(seen) => ValRef::Set(values_in(seen, name)),
    }
}

// The values of a property.
fn values_in<'a>(seen: Option<Described<'a>>, name: &Name) -> Literals<'a>
    ensures { literals_seen result ≡ values_seen seen.entry name.now }
{
    let found = match seen {
        Some(seen) => seen.properties.get(name),
        None => None,
    };
    match found {
        Some(values) => Literals::Many(values),
        None => Literals::Empty,
    }
}

/// The truth of a label test.
pub(crate) fn label_truth(seen: &Seen<'_>, label: &Name) -> Truth3
    ensures { result ≡ label_truth seen.now label.now }
{
    match seen {
        Err(_) => Truth3::Unknown,
        Ok(None) => Truth3::told(false),
        Ok(Some(seen)) => Truth3::told(seen.labels.contains(label)),
    }
}
