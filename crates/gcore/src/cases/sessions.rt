// Set operations, graphs by name and several statements.
use super::first_failing;
use std::test::Fail;

const CASES: &str = r##"
optional-without-partner-keeps-the-row
$ run q S=s
q: CONSTRUCT (n {k := COUNT(m)}), (m) MATCH (n) WHERE n.name = "Eva" OPTIONAL (n)-[e:likes]->(m)
s: «S»
= 0 {"edges":[],"gcore":1,"nodes":[{"id":5,"labels":["Person"],"properties":{"k":[0],"name":["Eva"]}}],"paths":[]}

whole-row-with-unbound-parts-is-a-key
$ run q S=s
q: CONSTRUCT (x {k := COUNT(m)}) MATCH (n) WHERE n.name = "Eva" OPTIONAL (n)-[e:likes]->(m)
s: «S»
= 0 {"edges":[],"gcore":1,"nodes":[{"id":18,"labels":[],"properties":{"k":[0]}}],"paths":[]}

minus-takes-the-edges-of-a-node
$ run q S=s
q: S MINUS (CONSTRUCT (n) MATCH (n) WHERE n.name = "Bob")
s: «S»
= 0 {"edges":[«E13»,«E14»,«E15»,«E16»],"gcore":1,"nodes":[«N1»,«N3»,«N4»,«N5»],"paths":[]}

intersect-drops-differing-values
$ run q S=s
q: S INTERSECT (CONSTRUCT (n) SET n.name := "X" MATCH (n) WHERE n.name = "Bob")
s: «S»
= 0 {"edges":[],"gcore":1,"nodes":[{"id":2,"labels":["Person"],"properties":{}}],"paths":[]}

union-unites-value-sets
$ run q S=s
q: (CONSTRUCT (n) MATCH (n) WHERE n.name = "Bob") UNION (CONSTRUCT (n) SET n.name := "X" MATCH (n) WHERE n.name = "Bob")
s: «S»
= 0 {"edges":[],"gcore":1,"nodes":[{"id":2,"labels":["Person"],"properties":{"name":["Bob","X"]}}],"paths":[]}

exists-finds-the-loop
$ run q S=s
q: CONSTRUCT (n) MATCH (n) WHERE EXISTS (CONSTRUCT () MATCH (n)-[:knows]->(n))
s: «S»
= 0 {"edges":[],"gcore":1,"nodes":[«N5»],"paths":[]}

first-statement-stays-before-a-fault
$ run q S=s
q: S; CONSTRUCT (n {x := 1/0}) MATCH (n)
s: «S»
> {"edges":[«E11»,«E12»,«E13»,«E14»,«E15»,«E16»,«E17»],"gcore":1,"nodes":[«N1»,«N2»,«N3»,«N4»,«N5»],"paths":[]}
= 1 gcore: F2 ZeroDivisor 1:18 row 0

identities-go-on-from-statement-to-statement
$ run q S=s
q: CONSTRUCT (x) MATCH (n) WHERE n.name = "Eva"; CONSTRUCT (x) MATCH (n) WHERE n.name = "Eva"
s: «S»
= 0 {"edges":[],"gcore":1,"nodes":[{"id":18,"labels":[],"properties":{}}],"paths":[]}«line»{"edges":[],"gcore":1,"nodes":[{"id":19,"labels":[],"properties":{}}],"paths":[]}

graph-view-prints-nothing
$ run q S=s
q: GRAPH VIEW v AS (CONSTRUCT (x) MATCH (n) WHERE n.name = "Eva"); v
s: «S»
= 0 {"edges":[],"gcore":1,"nodes":[{"id":18,"labels":[],"properties":{}}],"paths":[]}

local-graph-under-on
$ run q S=s
q: GRAPH v AS (CONSTRUCT (x) MATCH (n) WHERE n.name = "Eva") CONSTRUCT (a) MATCH (a) ON v
s: «S»
= 0 {"edges":[],"gcore":1,"nodes":[{"id":18,"labels":[],"properties":{}}],"paths":[]}

two-local-graphs-of-one-name-in-two-queries
$ run q S=s
q: GRAPH v AS (CONSTRUCT (x) MATCH (n) WHERE n.name = "Eva") v; GRAPH v AS (CONSTRUCT (x) MATCH (n) WHERE n.name = "Eva") v
s: «S»
= 0 {"edges":[],"gcore":1,"nodes":[{"id":18,"labels":[],"properties":{}}],"paths":[]}«line»{"edges":[],"gcore":1,"nodes":[{"id":19,"labels":[],"properties":{}}],"paths":[]}

a-view-that-a-later-view-uses
$ run q S=s
q: GRAPH VIEW v AS (CONSTRUCT (n) MATCH (n) WHERE n.name = "Bob"); GRAPH VIEW w AS (CONSTRUCT (n :Seen) MATCH (n) ON v); w; v
s: «S»
= 0 {"edges":[],"gcore":1,"nodes":[{"id":2,"labels":["Person","Seen"],"properties":{"name":["Bob"]}}],"paths":[]}«line»{"edges":[],"gcore":1,"nodes":[{"id":2,"labels":["Person"],"properties":{"name":["Bob"]}}],"paths":[]}

a-local-graph-that-a-later-head-uses
$ run q g=a
a: {"gcore":1,"nodes":[{"id":3}]}
q: GRAPH v AS (CONSTRUCT (x) MATCH (n)) GRAPH w AS (CONSTRUCT (y {k := 1}) MATCH (n) ON v) v UNION w
= 0 {"edges":[],"gcore":1,"nodes":[{"id":4,"labels":[],"properties":{}},{"id":5,"labels":[],"properties":{"k":[1]}}],"paths":[]}

a-local-graph-ends-with-its-query
$ run q g=a
a: {"gcore":1,"nodes":[{"id":3}]}
q: GRAPH v AS (GRAPH w AS (CONSTRUCT (x) MATCH (n)) w) GRAPH w AS (g) CONSTRUCT (n) MATCH (n) ON w
= 0 {"edges":[],"gcore":1,"nodes":[{"id":3,"labels":[],"properties":{}}],"paths":[]}

a-fault-in-a-head-ends-the-query
$ run q g=a
a: {"gcore":1,"nodes":[{"id":3}]}
q: g; GRAPH v AS (CONSTRUCT (x {k := 1/0}) MATCH (n)) v
> {"edges":[],"gcore":1,"nodes":[{"id":3,"labels":[],"properties":{}}],"paths":[]}
= 1 gcore: F2 ZeroDivisor 1:30 row 0

a-fault-in-a-view-ends-the-session
$ run q g=a
a: {"gcore":1,"nodes":[{"id":3}]}
q: GRAPH VIEW v AS (CONSTRUCT (x {k := 1/0}) MATCH (n)); g
= 1 gcore: F2 ZeroDivisor 1:32 row 0

identities-of-a-view-are-spent
$ run q g=a
a: {"gcore":1,"nodes":[{"id":3}]}
q: GRAPH VIEW v AS (CONSTRUCT (x) MATCH (n)); CONSTRUCT (y) MATCH (n) ON v; v INTERSECT (CONSTRUCT (n) MATCH (n) ON v)
= 0 {"edges":[],"gcore":1,"nodes":[{"id":5,"labels":[],"properties":{}}],"paths":[]}«line»{"edges":[],"gcore":1,"nodes":[{"id":4,"labels":[],"properties":{}}],"paths":[]}

a-view-of-paths-that-nothing-uses
$ run q g=a
a: {"gcore":1,"nodes":[{"id":3}]}
q: PATH w = (x)-[e]->(y) CONSTRUCT (n) MATCH (n)
= 0 {"edges":[],"gcore":1,"nodes":[{"id":3,"labels":[],"properties":{}}],"paths":[]}

minus-takes-the-path-of-a-missing-node
$ run q g=a
a: {"gcore":1,"nodes":[{"id":2},{"id":3}],"edges":[{"id":12,"from":2,"to":3}],"paths":[{"id":50,"walk":[3,12,2]}]}
q: g MINUS (CONSTRUCT (y) MATCH (x)-[e]->(y))
= 0 {"edges":[],"gcore":1,"nodes":[{"id":2,"labels":[],"properties":{}}],"paths":[]}
"##;

#[test]
fn sessions_come_to_what_is_due(rt: HostRuntime) -> Result<(), Fail> {
    assert_eq!(rt; first_failing(rt.alloc(), CASES)?, None);
    Ok(())
}
