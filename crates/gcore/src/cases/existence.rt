// OPTIONAL blocks and EXISTS queries of a MATCH.
use super::first_failing;
use std::test::Fail;

const CASES: &str = r##"
not-exists-finds-the-others
$ run q S=s
q: CONSTRUCT (n) MATCH (n) WHERE NOT EXISTS (CONSTRUCT () MATCH (n)-[:knows]->(n))
s: «S»
= 0 {"edges":[],"gcore":1,"nodes":[«N1»,«N2»,«N3»,«N4»],"paths":[]}

exists-in-exists-sees-the-variables-of-both
$ run q S=s
q: CONSTRUCT (n) MATCH (n) WHERE EXISTS (CONSTRUCT () MATCH (n)-[:knows]->(m) WHERE EXISTS (CONSTRUCT () MATCH (m)-[:knows]->(n)))
s: «S»
= 0 {"edges":[],"gcore":1,"nodes":[«N5»],"paths":[]}

exists-in-exists-over-two-edges
$ run q S=s
q: CONSTRUCT (n) MATCH (n) WHERE n.name <> "Eva" AND EXISTS (CONSTRUCT () MATCH (n)-[:knows]->(m) WHERE EXISTS (CONSTRUCT () MATCH (m)-[:knows]->(k), (k)-[:knows]->(n)))
s: «S»
= 0 {"edges":[],"gcore":1,"nodes":[«N1»,«N2»,«N3»,«N4»],"paths":[]}

each-conjunct-has-its-own-exists
$ run q S=s
q: CONSTRUCT (n) MATCH (n) WHERE EXISTS (CONSTRUCT () MATCH (n)-[:knows]->(m) WHERE m.name = "Cem") AND NOT EXISTS (CONSTRUCT () MATCH (n)-[:knows]->(m) WHERE m.name = "Bob")
s: «S»
= 0 {"edges":[],"gcore":1,"nodes":[«N2»,«N4»],"paths":[]}

exists-beside-or-in-one-conjunct
$ run q S=s
q: CONSTRUCT (n) MATCH (n) WHERE EXISTS (CONSTRUCT () MATCH (n)-[:knows]->(m) WHERE m.name = "Bob") OR EXISTS (CONSTRUCT () MATCH (n)-[:knows]->(m) WHERE m.name = "Ann")
s: «S»
= 0 {"edges":[],"gcore":1,"nodes":[«N1»,«N3»],"paths":[]}

a-name-in-exists-is-no-unnamed-node-outside
$ run q S=s
q: CONSTRUCT (n) MATCH (n)-[:knows]->() WHERE EXISTS (CONSTRUCT () MATCH (m) WHERE m.name = "Eva")
s: «S»
= 0 {"edges":[],"gcore":1,"nodes":[«N1»,«N2»,«N3»,«N4»,«N5»],"paths":[]}

an-unnamed-node-in-exists-is-none-outside
$ run q S=s
q: CONSTRUCT (n) MATCH (n)-[:knows]->() WHERE EXISTS (CONSTRUCT () MATCH ()-[:knows]->(n))
s: «S»
= 0 {"edges":[],"gcore":1,"nodes":[«N1»,«N2»,«N3»,«N4»,«N5»],"paths":[]}

exists-reads-an-outer-variable-in-its-condition-alone
$ run q S=s
q: CONSTRUCT (n) MATCH (n) WHERE EXISTS (CONSTRUCT () MATCH (m) WHERE m.name = "Bob" AND n.name < m.name)
s: «S»
= 0 {"edges":[],"gcore":1,"nodes":[«N1»],"paths":[]}

optional-with-partners-binds-them
$ run q S=s
q: CONSTRUCT (m) MATCH (n) WHERE n.name = "Ann" OPTIONAL (n)-[:knows]->(m)
s: «S»
= 0 {"edges":[],"gcore":1,"nodes":[«N2»,«N4»],"paths":[]}

condition-of-optional-leaves-the-row
$ run q S=s
q: CONSTRUCT (n), (m) MATCH (n) WHERE n.name = "Ann" OPTIONAL (n)-[:knows]->(m) WHERE m.name = "Eva"
s: «S»
= 0 {"edges":[],"gcore":1,"nodes":[«N1»],"paths":[]}

condition-of-optional-keeps-a-partner
$ run q S=s
q: CONSTRUCT (n), (m) MATCH (n) WHERE n.name = "Ann" OPTIONAL (n)-[:knows]->(m) WHERE m.name = "Bob"
s: «S»
= 0 {"edges":[],"gcore":1,"nodes":[«N1»,«N2»],"paths":[]}

two-optionals-in-turn
$ run q S=s
q: CONSTRUCT (a), (b) MATCH (n) WHERE n.name = "Cem" OPTIONAL (n)-[:knows]->(a) OPTIONAL (b)-[:knows]->(n)
s: «S»
= 0 {"edges":[],"gcore":1,"nodes":[«N1»,«N2»,«N4»],"paths":[]}

exists-in-the-condition-of-optional
$ run q S=s
q: CONSTRUCT (n), (m) MATCH (n) WHERE n.name = "Ann" OPTIONAL (n)-[:knows]->(m) WHERE EXISTS (CONSTRUCT () MATCH (m) WHERE "MIT" IN m.employer)
s: «S»
= 0 {"edges":[],"gcore":1,"nodes":[«N1»,«N4»],"paths":[]}

optional-that-shares-no-variable
$ run q S=s
q: CONSTRUCT (n), (m) MATCH (n) WHERE n.name = "Eva" OPTIONAL (m) WHERE m.name = "Bob"
s: «S»
= 0 {"edges":[],"gcore":1,"nodes":[«N2»,«N5»],"paths":[]}

optional-on-another-graph
$ run q S=s T=t
q: CONSTRUCT (n), (m) MATCH (n) WHERE n.name = "Ann" OPTIONAL (n)-[:likes]->(m) ON T
s: «S»
t: {"gcore":1,"nodes":[{"id":1},{"id":9}],"edges":[{"id":30,"from":1,"to":9,"labels":["likes"]}]}
= 0 {"edges":[],"gcore":1,"nodes":[«N1»,{"id":9,"labels":[],"properties":{}}],"paths":[]}
"##;

#[test]
fn optional_blocks_and_exists_queries_come_to_what_is_due(rt: HostRuntime) -> Result<(), Fail> {
    assert_eq!(rt; first_failing(rt.alloc(), CASES)?, None);
    Ok(())
}
