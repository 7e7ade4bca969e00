use gc_sorts::Checked;
use std::alloc::Global;

/// What queries are read in: their file, and the allocator of what they make.
#[derive(Drop)]
pub(crate) struct Session<'a> {
    pub alloc: Global,
    pub checked: &'a Checked,
}
