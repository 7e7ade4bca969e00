use gc_base::Numbered;
use gc_cert::SearchDoc;

/// The documents of some searches, which are named by their numbers.
pub type SearchDocList = Numbered<SearchDoc>;

/// A certificate: the documents of the searches of a session.
#[derive(Drop)]
pub struct Certificate {
    pub searches: SearchDocList,
}
