//! What the CONSTRUCT of a checked query file asks for, as a recipe: its variables with their groupings,
//! what is done to them, its chains and its graphs. Others rely on `recipe`. This crate knows of no rows and
//! makes nothing.
#![tactic(auto)]

mod copies;
mod index;
mod instances;
mod naming;
mod place;
mod placing;
mod reading;
mod renaming;
mod terms;
mod told;
mod varying;

pub use reading::recipe;
