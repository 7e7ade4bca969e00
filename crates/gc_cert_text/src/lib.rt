//! The text of certificates. Others rely on this: `read` gives exactly the certificate that bytes tell, or
//! exactly their first refusal. This crate knows of no search and of no rule of acceptance.
#![tactic(auto)]

mod certificate;
mod elements;
mod expressions;
mod graph_walks;
mod graphs;
mod laws;
mod lists;
mod numbers;
mod reading;
mod refusal;
mod search_numbers;
mod segments;
mod shapes;
mod walks;
mod words;
mod writing;
mod written;
mod written_expressions;

pub use certificate::{Certificate, SearchDocList};
pub use laws::{
    certificates_are_formed, read_certificates_read_back, written_certificates_read_back,
};
pub use reading::read;
pub use refusal::CertRefusal;
pub use writing::write;
