//! Definitions alone: the path property graph as plain records and lists, valid graphs, and the
//! coherence of two graphs. The crates above cite them; their structs are seen as these records.
//! This crate has no code, and knows of no file, query or index.
#![tactic(auto)]
