/// How the graphs that a session prints are written.
#[derive(Clone, Copy, Debug, PartialEq, Eq)]
pub enum Style {
    /// Each as its text.
    Text,
    /// Each as one line of counts, behind the counts of the made graph that was asked.
    Summary { nodes: usize, edges: usize },
}
