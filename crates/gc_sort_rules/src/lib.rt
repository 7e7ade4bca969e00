//! The fifteen sort rules of query files, each as a predicate of its own on the places of a file, and the law that what
//! they break is what gc_sorts checks. This crate has definitions and laws, and no code.
#![tactic(auto)]

mod laws;

pub use laws::{
    breaches_are_those_of_the_fifteen_rules, each_rule_is_broken_by_its_example,
    the_check_is_by_the_fifteen_rules,
};
