// What a CONSTRUCT makes, and the faults that it ends in.
use super::first_failing;
use std::test::Fail;

const CASES: &str = r##"
stored-path-that-walks-an-edge-backwards
$ run q g=a
a: {"gcore":1,"nodes":[{"id":2},{"id":3}],"edges":[{"id":12,"from":2,"to":3}],"paths":[{"id":50,"walk":[3,12,2]}]}
q: CONSTRUCT (n)-/@p/->(m) MATCH (n)-/@p/->(m)
= 0 {"edges":[{"from":2,"id":12,"labels":[],"properties":{},"to":3}],"gcore":1,"nodes":[{"id":2,"labels":[],"properties":{}},{"id":3,"labels":[],"properties":{}}],"paths":[{"id":50,"labels":[],"properties":{},"walk":[3,12,2]}]}

new-node-for-each-property-value
$ run q S=s
q: CONSTRUCT (x {e := v}) MATCH (n {employer=v})
s: «S»
= 0 {"edges":[],"gcore":1,"nodes":[{"id":18,"labels":[],"properties":{"e":["CWI"]}},{"id":19,"labels":[],"properties":{"e":["MIT"]}}],"paths":[]}

loop-without-direction-gives-one-row
$ run q S=s
q: CONSTRUCT (x) MATCH (n)-[e]-(m) WHERE n.name = "Eva"
s: «S»
= 0 {"edges":[],"gcore":1,"nodes":[{"id":18,"labels":[],"properties":{}}],"paths":[]}

companies-grouped-by-employer
$ run q S=s
q: CONSTRUCT (x GROUP e :Company {name:=e})<-[y:worksAt {score:=COUNT(*)}]-(n) MATCH (n:Person {employer=e})
s: «S»
= 0 {"edges":[{"from":4,"id":20,"labels":["worksAt"],"properties":{"score":[1]},"to":18},{"from":4,"id":21,"labels":["worksAt"],"properties":{"score":[1]},"to":19}],"gcore":1,"nodes":[«N4»,{"id":18,"labels":["Company"],"properties":{"name":["CWI"]}},{"id":19,"labels":["Company"],"properties":{"name":["MIT"]}}],"paths":[]}

when-drops-every-instance
$ run q S=s
q: CONSTRUCT (x GROUP e :Company {name:=e})<-[y:worksAt {score:=COUNT(*)}]-(n) WHEN y.score > 1 MATCH (n:Person {employer=e})
s: «S»
= 0 {"edges":[],"gcore":1,"nodes":[],"paths":[]}

sum-past-range-f1
$ run q S=s
q: CONSTRUCT (n {x := 9223372036854775807 + 1}) MATCH (n)
s: «S»
= 1 gcore: F1 Overflow 1:15 row 0

division-by-zero-f2
$ run q S=s
q: CONSTRUCT (n {x := 1/0}) MATCH (n)
s: «S»
= 1 gcore: F2 ZeroDivisor 1:15 row 0

text-plus-number-f3
$ run q S=s
q: CONSTRUCT (n {x := n.name + 1}) MATCH (n)
s: «S»
= 1 gcore: F3 WrongKind 1:15 row 0

no-identity-left-f6
$ run q g=a
a: {"gcore":1,"nodes":[{"id":9007199254740991}]}
q: CONSTRUCT (x) MATCH (n)
= 1 gcore: F6 IdsSpent 1:1 needed 1

one-new-edge-for-each-pair-of-ends
$ run q S=s
q: CONSTRUCT (n)-[:x]->(m) MATCH (n)-[e:knows]->(m) WHERE n.name = "Ann" AND m.name = "Bob"
s: «S»
= 0 {"edges":[{"from":1,"id":18,"labels":["x"],"properties":{},"to":2}],"gcore":1,"nodes":[«N1»,«N2»],"paths":[]}

when-reads-the-whole-group
$ run q S=s
q: CONSTRUCT (x GROUP n {k := COUNT(*)}) WHEN x.k > 1 MATCH (n)-[e]->(m)
s: «S»
= 0 {"edges":[],"gcore":1,"nodes":[{"id":18,"labels":[],"properties":{"k":[3]}}],"paths":[]}

copy-of-a-node
$ run q S=s
q: CONSTRUCT (x =n) MATCH (n) WHERE n.name = "Bob"
s: «S»
= 0 {"edges":[],"gcore":1,"nodes":[{"id":18,"labels":["Person"],"properties":{"name":["Bob"]}}],"paths":[]}

removed-label-and-property
$ run q S=s
q: CONSTRUCT (n) REMOVE n.name REMOVE n:Person MATCH (n) WHERE n.name = "Bob"
s: «S»
= 0 {"edges":[],"gcore":1,"nodes":[{"id":2,"labels":[],"properties":{}}],"paths":[]}

bound-edge-between-its-own-ends
$ run q S=s
q: CONSTRUCT (n)-[e]->(m) MATCH (n)-[e {msgs=v}]->(m) WHERE v = 1
s: «S»
= 0 {"edges":[«E11»],"gcore":1,"nodes":[«N1»,«N2»],"paths":[]}
"##;

#[test]
fn constructs_come_to_what_is_due(rt: HostRuntime) -> Result<(), Fail> {
    assert_eq!(rt; first_failing(rt.alloc(), CASES)?, None);
    Ok(())
}
