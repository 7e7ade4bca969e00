ghost use Rattle.std.specs.Prelude.{◌≡◌, ◌++◌, ◌∷◌, [], ◌≤◌, false, length, map, drop, take, IfOk, OnOk};
ghost use Rattle.std.specs.Option.{option_map};
ghost use Rattle.gc_expr.specs.Trees.{renamed};
ghost use Rattle.gc_expr.specs.Views.{name_of, numbered_expr};
ghost use Rattle.gc_ast.specs.PatternViews.{named, located_tree, pattern_tree};
ghost use Rattle.gc_ast.specs.QueryViews.{block_tree, optional_tree, item_tree, formula_tree};
ghost use Rattle.gc_ast.specs.Trees.{row, rows, maybe};
ghost use Rattle.gc_sorts.specs.declared.form.Takes.TheVariants as takes;
ghost use Rattle.gc_sorts.specs.Breaches.{both, first_among};
ghost use Rattle.gc_sorts.specs.Expressions.{expression_breaches};
ghost use Rattle.gc_sorts.specs.Graphs.{unknown_graph, taken};
ghost use Rattle.gc_sorts.specs.Patterns.{each, patterns_breaches, chains_breaches};
ghost use Rattle.gc_sorts.specs.Constructs.{formula_breaches};
ghost use Rattle.gc_sorts.specs.Matches.{each_use, place_breaches};
ghost use Rattle.gc_sorts.specs.SortRules.{graphs_in, match_breaches, construct_breaches, seen_in, in_view, view_uses};
ghost use Rattle.gc_sorts.specs.Marks.{IsMark};
ghost use Rattle.gc_sorts.specs.Uses.{all_of, located_uses, pattern_uses};
ghost use Rattle.gc_sorts.specs.Variables.{cost_names};

use crate::basics::basic;
use crate::breach::Breach;
use crate::constructs::formula;
use crate::expressions::expression;
use crate::form::Takes;
use crate::graphs::{GraphNames, taken_graph, taken_view, unknown_graph};
use crate::index::Index;
use crate::makes::Makes;
use crate::matches::{add_costs, places};
use crate::patterns::{block_patterns, view_chains};
use crate::standing::Place;
use crate::uses::{add_chains, add_located};
use crate::variables::Variables;
use gc_ast::{ChainList, Formula, ItemList, LocatedList, MatchBlock, NameTable, OptionalList};
use gc_base::{Memory, NameAt, NameList};
use gc_expr::Expr;
use std::alloc::Global;
use std::marker::Model;

/// What is in scope at a place of a file, and what is taken up again at each CONSTRUCT.
#[derive(Drop)]
pub(crate) struct Checker<'n> {
    alloc: Global,
    graphs: GraphNames<'n>,
    views: Index<'n>,
    variables: Variables<'n>,
    costs: Index<'n>,
    makes: Makes<'n>,
}

impl<'n> Model for Checker<'n> {
    ghost use Rattle.std.specs.Prelude.{◌≡◌};
    ghost use Rattle.gc_sorts.specs.Constructs.{nothing_made};
    ghost use Rattle.gc_sorts.specs.Holders as holders;
    ghost use Rattle.gc_sorts.specs.Variables.{cost_names};

    ghost Value = { holders.HeldSights };

    ghost view = { λ c. record {
      names = c.variables.names;
      at = record { loaded = c.graphs.loaded; declared = c.graphs.declared; views = c.views.order; uses = c.variables.uses };
    } };

    ghost invariant = { λ c. (c.graphs.names ≡ c.variables.names) × (c.views.names ≡ c.variables.names) × (c.costs.names ≡ c.variables.names) ×
        (c.makes.names ≡ c.variables.names) × (c.costs.order ≡ cost_names c.variables.uses) × (c.makes.all ≡ nothing_made) };
}

impl<'n> Checker<'n> {
    /// Over graphs of these names.
    pub fn of(
        alloc: Global,
        names: &'n NameTable,
        loaded: &'n NameList,
    ) -> Result<Checker<'n>, Memory>
        ensures { IfOk result (λ checker. checker ≡ record { names = names.now; at = record { loaded = loaded.now; declared = []; views = []; uses = [] } }) }
    {
        let graphs = GraphNames::of(alloc, names, loaded)?;
        let views = Index::of(alloc, names)?;
        let variables = Variables::of(alloc, names)?;
        let costs = Index::of(alloc, names)?;
        let makes = Makes::of(alloc, names)?;
        Ok(Checker {
            alloc,
            graphs,
            views,
            variables,
            costs,
            makes,
        })
    }

    /// Where lists go.
    pub fn alloc(&self) -> Global {
        self.alloc
    }

    /// How many graphs are declared.
    pub fn graph_count(&self) -> usize
        ensures { result ≡ length self.now.at.declared }
    {
        self.graphs.declared()
    }

    /// How many views are in scope.
    pub fn view_count(&self) -> usize
        ensures { result ≡ length self.now.at.views }
    {
        self.views.len()
    }

    /// Keeps so many of the declared graphs and so many views.
    pub fn restore(&mut self, graphs: usize, views: usize)
        ensures { self.new ≡ record {
          names = self.old.names;
          at = record self.old.at
              { declared = take graphs self.old.at.declared; views = take views self.old.at.views };
        } }
    {
        self.graphs.cut(graphs);
        self.views.cut(views);
    }

    /// Declares a graph.
    pub fn declare_graph(&mut self, name: NameAt) -> Result<(), Memory>
        ensures { OnOk result (self.new ≡ record {
          names = self.old.names;
          at = record self.old.at { declared = self.old.at.declared ++ name_of self.old.names name.sym ∷ [] };
        }) }
    {
        self.graphs.declare(name.sym)
    }

    /// Declares a view.
    pub fn declare_view(&mut self, name: NameAt) -> Result<(), Memory>
        ensures { OnOk result (self.new ≡ record {
          names = self.old.names;
          at = record self.old.at { views = self.old.at.views ++ name_of self.old.names name.sym ∷ [] };
        }) }
    {
        self.views.push(name.sym)
    }

    /// The first breach of those so far and a graph that is not known.
    pub fn unknown_graph(&self, found: Option<Breach>, graph: NameAt) -> Option<Breach>
        ensures { result ≡ first_among found (unknown_graph (graphs_in self.now.at) (named self.now.names graph)) }
    {
        unknown_graph(found, &self.graphs, graph)
    }

    /// The first breach of those so far and a graph's name that is taken.
    pub fn taken_graph(&self, found: Option<Breach>, name: NameAt) -> Option<Breach>
        ensures { result ≡ first_among found (taken (graphs_in self.now.at) (named self.now.names name)) }
    {
        taken_graph(found, &self.graphs, name)
    }

    /// The first breach of those so far and a view's name that is taken.
    pub fn taken_view(&self, found: Option<Breach>, name: NameAt) -> Option<Breach>
        ensures { result ≡ first_among found (taken self.now.at.views (named self.now.names name)) }
    {
        taken_view(found, &self.views, name)
    }

    /// The first breach of those so far and of the patterns of a block.
    pub fn patterns(
        &self,
        found: Option<Breach>,
        patterns: &LocatedList,
    ) -> Result<Option<Breach>, Memory>
        ensures { IfOk result (λ first. first ≡ first_among found (patterns_breaches (graphs_in self.now.at) self.now.at.views
            (row (map (located_tree self.now.names) patterns.now)))) }
    {
        block_patterns(self.alloc, found, &self.graphs, &self.views, patterns)
    }

    /// The first breach of those so far and of a condition, of each of whose EXISTS it is told whether it
    /// may stand there.
    pub fn condition(&self, found: Option<Breach>, expr: &Expr, exists: &[bool]) -> Option<Breach>
        ensures { result ≡ first_among found (expression_breaches (record { uses = self.now.at.uses; stored = []; exists = exists.now }) false
            takes.Condition 0 (renamed (name_of self.now.names) (numbered_expr expr.now))) }
    {
        let makes = &self.makes;
        let place = Place {
            variables: &self.variables,
            made: &makes.made,
            stored: &makes.stored,
            is_when: false,
            exists,
        };
        expression(found, &place, false, Takes::Condition, expr)
    }

    /// The same of the chains of a view.
    pub fn enter_chains(&mut self, chains: &ChainList) -> Result<Mark, Memory>
        ensures mark { IfOk result (λ mark. IsMark mark self.old.at.uses) }
        ensures places { OnOk result (self.new ≡ record {
          names = self.old.names;
          at = record self.old.at { uses = view_uses self.old.at (rows (map (λ c. map (pattern_tree self.old.names) c.parts) chains.now)) };
        }) }
    {
        let mark = self.mark();
        match enter_chains(&mut self.variables, &mut self.costs, chains) {
            Ok(()) => Ok(mark),
            Err(memory) => {
                self.variables.cut(0);
                self.costs.cut(0);
                Err(memory)
            }
        }
    }

    /// The first breach of those so far and of the places from a mark on.
    pub fn places(&self, found: Option<Breach>, mark: Mark) -> Option<Breach>
        requires { mark.places ≤ length self.now.at.uses }
        ensures { result ≡ first_among found (each_use (place_breaches self.now.at.uses) (drop mark.places self.now.at.uses)) }
    {
        places(found, &self.variables, &self.costs, mark.places)
    }

    /// The first breach of those so far and of the chains of a view.
    pub fn chains(
        &self,
        found: Option<Breach>,
        name: NameAt,
        chains: &ChainList,
    ) -> Result<Option<Breach>, Memory>
        ensures { IfOk result (λ first. first ≡ first_among found (chains_breaches self.now.at.views (named self.now.names name)
            (rows (map (λ c. map (pattern_tree self.now.names) c.parts) chains.now)))) }
    {
        view_chains(self.alloc, found, &self.views, name, chains)
    }

    /// The first breach of those so far and of an expression of a view, which may be absent.
    pub fn view_formula(
        &self,
        found: Option<Breach>,
        takes: Takes,
        given: &Option<Formula>,
    ) -> Option<Breach>
        ensures { result ≡ first_among found (each (formula_breaches (in_view self.now.at.uses) false takes)
            (maybe (option_map (formula_tree self.now.names) given.now))) }
    {
        let Some(given) = given else {
            return found;
        };
        let makes = &self.makes;
        let place = Place {
            variables: &self.variables,
            made: &makes.made,
            stored: &makes.stored,
            is_when: false,
            exists: &[],
        };
        formula(found, &place, false, takes, given)
    }

    /// Takes the places of patterns into scope, and gives where they begin.
    pub fn enter(&mut self, patterns: &LocatedList) -> Result<Mark, Memory>
        ensures mark { IfOk result (λ mark. IsMark mark self.old.at.uses) }
        ensures places { OnOk result (self.new ≡ record {
          names = self.old.names;
          at = record self.old.at { uses = seen_in self.old.at (row (map (located_tree self.old.names) patterns.now)) };
        }) }
    {
        let mark = self.mark();
        match enter(&mut self.variables, &mut self.costs, patterns) {
            Ok(()) => Ok(mark),
            Err(memory) => {
                self.variables.cut(0);
                self.costs.cut(0);
                Err(memory)
            }
        }
    }

    // Where the places end.
    fn mark(&self) -> Mark
        ensures { IsMark result self.now.at.uses }
    {
        Mark {
            places: self.variables.len(),
            costs: self.costs.len(),
        }
    }

    /// Takes the places from a mark on out of scope.
    pub fn leave(&mut self, mark: Mark)
        requires { IsMark mark (take mark.places self.old.at.uses) }
        ensures { self.new ≡ record { names = self.old.names; at = record self.old.at { uses = take mark.places self.old.at.uses } } }
    {
        self.variables.cut(mark.places);
        self.costs.cut(mark.costs);
    }

    /// The first breach of those so far and of a CONSTRUCT with its MATCH, but for what each block breaks
    /// by itself.
    pub fn basic(
        &mut self,
        found: Option<Breach>,
        items: &ItemList,
        main: &MatchBlock,
        optionals: &OptionalList,
    ) -> Result<Option<Breach>, Memory>
        ensures kept { OnOk result (self.new ≡ self.old) }
        ensures found { IfOk result (λ first. first ≡ first_among found
            (both (match_breaches self.old.at.uses (block_tree self.old.names main.now)
            (row (map (optional_tree self.old.names) optionals.now.items)))
            (construct_breaches (graphs_in self.old.at) self.old.at.uses (row (map (item_tree self.old.names) items.now.items))
            (block_tree self.old.names main.now) (row (map (optional_tree self.old.names) optionals.now.items))))) }
    {
        let mark = self.mark();
        let first = basic(
            self.alloc,
            found,
            &self.graphs,
            &mut self.variables,
            &mut self.costs,
            &mut self.makes,
            items,
            main,
            optionals,
        );
        self.makes.clear();
        match first {
            Ok(first) => {
                self.variables.cut(mark.places);
                self.costs.cut(mark.costs);
                Ok(first)
            }
            Err(memory) => {
                self.variables.cut(0);
                self.costs.cut(0);
                Err(memory)
            }
        }
    }
}

/// Where places and costs ended.
#[derive(Clone, Copy, Debug, PartialEq, Eq)]
pub struct Mark {
    pub places: usize,
    pub costs: usize,
}

// Adds places and costs.
fn enter(variables: &mut Variables, costs: &mut Index, patterns: &LocatedList) -> Result<(), Memory>
    requires names { costs.old.names ≡ variables.old.names }
    requires costs { costs.old.order ≡ cost_names variables.old.uses }
    ensures variables { variables.new.names ≡ variables.old.names }
    ensures costs { costs.new.names ≡ costs.old.names }
    ensures uses { OnOk result (variables.new.uses ≡ variables.old.uses ++ all_of located_uses (row (map (located_tree variables.old.names) patterns.now))) }
    ensures order { OnOk result (costs.new.order ≡ cost_names variables.new.uses) }
{
    let from = variables.len();
    add_located(variables, patterns)?;
    add_costs(costs, variables, from)
}

// Adds the places and the costs of the chains of a view.
fn enter_chains(
    variables: &mut Variables,
    costs: &mut Index,
    chains: &ChainList,
) -> Result<(), Memory>
    requires names { costs.old.names ≡ variables.old.names }
    requires costs { costs.old.order ≡ cost_names variables.old.uses }
    ensures variables { variables.new.names ≡ variables.old.names }
    ensures costs { costs.new.names ≡ costs.old.names }
    ensures uses { OnOk result (variables.new.uses ≡ variables.old.uses ++ all_of (all_of pattern_uses)
        (rows (map (λ c. map (pattern_tree variables.old.names) c.parts) chains.now))) }
    ensures order { OnOk result (costs.new.order ≡ cost_names variables.new.uses) }
{
    let from = variables.len();
    add_chains(variables, chains)?;
    add_costs(costs, variables, from)
}
