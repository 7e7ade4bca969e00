// Patterns that ask for some walk between two nodes, or for all of them.
use super::first_failing;
use std::test::Fail;

const CASES: &str = r##"
two-edges-the-first-backwards
$ run q S=s
q: CONSTRUCT (m) MATCH (n)-/<:knows- :knows->/->(m) WHERE n.name = "Cem"
s: «S»
= 0 {"edges":[],"gcore":1,"nodes":[«N1»],"paths":[]}

a-star-has-the-empty-walk-at-each-node
$ run q S=s
q: CONSTRUCT (n) MATCH (n)-/<:likes*>/->(m)
s: «S»
= 0 {"edges":[],"gcore":1,"nodes":[«N1»,«N2»,«N3»,«N4»,«N5»],"paths":[]}

a-node-test-ends-a-walk
$ run q S=s
q: CONSTRUCT (m) MATCH (n)-/<:knows !:City>/->(m) WHERE n.name = "Ann"
s: «S»
= 0 {"edges":[],"gcore":1,"nodes":[],"paths":[]}

an-expression-of-the-most-states
$ run q g=s
q: CONSTRUCT (n) MATCH (n)-/<«511×_ »_>/->(m)
s: «S»
= 0 {"edges":[],"gcore":1,"nodes":[«N1»,«N2»,«N3»,«N4»,«N5»],"paths":[]}

both-nodes-are-bound
$ run q S=s
q: CONSTRUCT (n) MATCH (n)-[:knows]->(m)-/<:knows>/->(n)
s: «S»
= 0 {"edges":[],"gcore":1,"nodes":[«N5»],"paths":[]}

walks-to-one-node
$ run q S=s
q: CONSTRUCT (n) MATCH (n)-/<:knows :knows>/->(m) WHERE m.name = "Ann"
s: «S»
= 0 {"edges":[],"gcore":1,"nodes":[«N2»,«N4»],"paths":[]}

a-branch-and-a-star-leave-a-circle-of-one-node
$ run q S=s
q: CONSTRUCT (m) MATCH (n)-/<(:likes | :knows)*>/->(m) WHERE n.name = "Eva"
s: «S»
= 0 {"edges":[],"gcore":1,"nodes":[«N5»],"paths":[]}

exists-asks-for-a-walk
$ run q S=s
q: CONSTRUCT (n) MATCH (n) WHERE NOT EXISTS (CONSTRUCT () MATCH (n)-/<:knows :knows>/->(m) WHERE m.name = "Ann")
s: «S»
= 0 {"edges":[],"gcore":1,"nodes":[«N1»,«N3»,«N5»],"paths":[]}

a-node-that-the-graph-of-the-walks-lacks
$ run q S=s T=t
q: CONSTRUCT (m) MATCH (n) OPTIONAL (n)-/<:likes*>/->(m) ON T
s: «S»
t: {"gcore":1,"nodes":[{"id":1},{"id":9}],"edges":[{"id":30,"from":1,"to":9,"labels":["likes"]}]}
= 0 {"edges":[],"gcore":1,"nodes":[{"id":1,"labels":[],"properties":{}},{"id":9,"labels":[],"properties":{}}],"paths":[]}

walks-beside-one-another
$ run q S=s
q: CONSTRUCT (m) MATCH (n)-/<:knows>/->(m)-/<:knows>/->(k), (n)-/<:knows :knows>/->(k) WHERE n.name = "Ann"
s: «S»
= 0 {"edges":[],"gcore":1,"nodes":[«N2»,«N4»],"paths":[]}

all-walks-of-two-edges-projected
$ run q S=s
q: CONSTRUCT (n)-/p/->(m) MATCH (n)-/ALL p<:knows :knows>/->(m) WHERE n.name = "Ann" AND m.name = "Cem"
s: «S»
= 0 {"edges":[«E11»,«E12»,«E13»,«E14»,«E17»],"gcore":1,"nodes":[«N1»,«N2»,«N3»,«N4»],"paths":[]}

all-walks-between-nodes-that-have-none
$ run q S=s
q: CONSTRUCT (n), (m)-/p/->(n) MATCH (n) OPTIONAL (n)-[:knows]->(m), (m)-/ALL p<:knows>/->(n)
s: «S»
= 0 {"edges":[«E16»],"gcore":1,"nodes":[«N1»,«N2»,«N3»,«N4»,«N5»],"paths":[]}
"##;

#[test]
fn patterns_of_walks_come_to_what_is_due(rt: HostRuntime) -> Result<(), Fail> {
    assert_eq!(rt; first_failing(rt.alloc(), CASES)?, None);
    Ok(())
}
