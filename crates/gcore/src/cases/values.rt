// Values and conditions in a WHERE, and what patterns bind.
use super::first_failing;
use std::test::Fail;

const CASES: &str = r##"
product-past-the-range-is-unknown
$ run q g=a
q: CONSTRUCT (n) MATCH (n) WHERE NOT 9223372036854775807 * 2 = 1
a: «P»
= 0 {"edges":[],"gcore":1,"nodes":[],"paths":[]}

product-past-the-range-is-not-another-number
$ run q g=a
q: CONSTRUCT (n) MATCH (n) WHERE 9223372036854775807 * 2 <> 1
a: «P»
= 0 {"edges":[],"gcore":1,"nodes":[],"paths":[]}

text-plus-number-is-unknown
$ run q g=a
q: CONSTRUCT (n) MATCH (n) WHERE NOT n.name + 1 = 1
a: «P»
= 0 {"edges":[],"gcore":1,"nodes":[],"paths":[]}

undefined-operand-beside-an-empty-one-is-unknown
$ run q g=a
q: CONSTRUCT (n) MATCH (n) WHERE NOT n.none + 1/0 = n.none
a: «P»
= 0 {"edges":[],"gcore":1,"nodes":[],"paths":[]}

empty-operand-beside-a-text-is-empty
$ run q g=a
q: CONSTRUCT (n) MATCH (n) WHERE n.name + n.none = n.none
a: «P»
= 0 {"edges":[],"gcore":1,"nodes":[«N1»,«P4»],"paths":[]}

stored-path-has-a-length
$ run q g=a
q: CONSTRUCT (n) MATCH (n)-/@p/->(m) WHERE length(p) = 2
a: «P»
= 0 {"edges":[],"gcore":1,"nodes":[«P4»],"paths":[]}

stored-path-ends-at-its-last-node
$ run q g=a
q: CONSTRUCT (m) MATCH (n)-/@p/->(m)
a: «P»
= 0 {"edges":[],"gcore":1,"nodes":[«N1»],"paths":[]}

stored-path-has-a-property
$ run q g=a
q: CONSTRUCT (m) MATCH (n)-/@p:way/->(m) WHERE p.cost = 7
a: «P»
= 0 {"edges":[],"gcore":1,"nodes":[«N1»],"paths":[]}

stored-path-of-another-label
$ run q g=a
q: CONSTRUCT (m) MATCH (n)-/@p:road/->(m)
a: «P»
= 0 {"edges":[],"gcore":1,"nodes":[],"paths":[]}

node-of-a-path-has-its-properties
$ run q g=a
q: CONSTRUCT (m) MATCH (n)-/@p/->(m) WHERE "CWI" IN nodes(p)[1].employer AND nodes(p)[2].name = "Ann"
a: «P»
= 0 {"edges":[],"gcore":1,"nodes":[«N1»],"paths":[]}

nodes-of-a-path-are-nodes
$ run q g=a
q: CONSTRUCT (n), (m) MATCH (n)-/@p/->(m) WHERE nodes(p)[0] = n AND nodes(p)[2] = m AND nodes(p)[0] <> m
a: «P»
= 0 {"edges":[],"gcore":1,"nodes":[«N1»,«P4»],"paths":[]}

edge-of-a-path-has-its-properties
$ run q g=a
q: CONSTRUCT (n) MATCH (n)-/@p/->(m) WHERE edges(p)[0].msgs = 0 AND edges(p)[1].msgs = 3
a: «P»
= 0 {"edges":[],"gcore":1,"nodes":[«P4»],"paths":[]}

edge-past-the-end-of-a-path-has-no-value
$ run q g=a
q: CONSTRUCT (n) MATCH (n)-/@p/->(m) WHERE edges(p)[2].msgs = n.none
a: «P»
= 0 {"edges":[],"gcore":1,"nodes":[«P4»],"paths":[]}

edge-before-the-start-of-a-path-has-no-value
$ run q g=a
q: CONSTRUCT (n) MATCH (n)-/@p/->(m) WHERE edges(p)[-1].msgs = n.none
a: «P»
= 0 {"edges":[],"gcore":1,"nodes":[«P4»],"paths":[]}

index-that-is-no-number-is-unknown
$ run q g=a
q: CONSTRUCT (n) MATCH (n)-/@p/->(m) WHERE NOT edges(p)[n.name].msgs = 1
a: «P»
= 0 {"edges":[],"gcore":1,"nodes":[],"paths":[]}

label-of-an-edge-of-a-path
$ run q g=a
q: CONSTRUCT (n) MATCH (n)-/@p/->(m) WHERE edges(p)[0]:likes AND NOT edges(p)[1]:likes
a: «P»
= 0 {"edges":[],"gcore":1,"nodes":[«P4»],"paths":[]}

property-variable-takes-each-value
$ run q g=a
q: CONSTRUCT (n) MATCH (n {employer = e}) WHERE e = "MIT"
a: «P»
= 0 {"edges":[],"gcore":1,"nodes":[«P4»],"paths":[]}

property-variable-of-no-value
$ run q g=a
q: CONSTRUCT (n) MATCH (n {none = e})
a: «P»
= 0 {"edges":[],"gcore":1,"nodes":[],"paths":[]}

property-variable-of-an-edge
$ run q g=a
q: CONSTRUCT (m) MATCH (n)-[e {msgs = k}]->(m) WHERE k > 0
a: «P»
= 0 {"edges":[],"gcore":1,"nodes":[«N1»],"paths":[]}

loop-ends-where-it-begins
$ run q g=a
q: CONSTRUCT (n) MATCH (n)-[e]-(m) WHERE n = m
a: «P»
= 0 {"edges":[],"gcore":1,"nodes":[«P4»],"paths":[]}

edge-without-direction-has-both-ends
$ run q g=a
q: CONSTRUCT (n) MATCH (n)-[e]-(m) WHERE n <> m
a: «P»
= 0 {"edges":[],"gcore":1,"nodes":[«N1»,«P4»],"paths":[]}

edge-against-its-direction
$ run q g=a
q: CONSTRUCT (n) MATCH (n)<-[e]-(m) WHERE n <> m
a: «P»
= 0 {"edges":[],"gcore":1,"nodes":[«N1»],"paths":[]}

edge-with-one-name-at-both-ends
$ run q g=a
q: CONSTRUCT (n) MATCH (n)-[e]->(n)
a: «P»
= 0 {"edges":[],"gcore":1,"nodes":[«P4»],"paths":[]}

same-edge-twice
$ run q g=a
q: CONSTRUCT (m) MATCH (n)-[e:likes]->(m), (a)-[e]->(b)
a: «P»
= 0 {"edges":[],"gcore":1,"nodes":[«P4»],"paths":[]}

either-of-two-labels
$ run q g=a
q: CONSTRUCT (n) MATCH (n:Boss|City)
a: «P»
= 0 {"edges":[],"gcore":1,"nodes":[«P4»],"paths":[]}

both-of-two-labels
$ run q g=a
q: CONSTRUCT (n) MATCH (n:Boss:Person)
a: «P»
= 0 {"edges":[],"gcore":1,"nodes":[«P4»],"paths":[]}

none-of-two-labels
$ run q g=a
q: CONSTRUCT (n) MATCH (n:Boss:City)
a: «P»
= 0 {"edges":[],"gcore":1,"nodes":[],"paths":[]}

and-of-three-conditions
$ run q g=a
q: CONSTRUCT (n) MATCH (n) WHERE n:Person AND NOT n:Boss AND n.name = "Ann"
a: «P»
= 0 {"edges":[],"gcore":1,"nodes":[«N1»],"paths":[]}

unknown-and-false-is-false
$ run q g=a
q: CONSTRUCT (n) MATCH (n) WHERE NOT (1/0 = 1 AND n:City)
a: «P»
= 0 {"edges":[],"gcore":1,"nodes":[«N1»,«P4»],"paths":[]}

unknown-and-true-is-unknown
$ run q g=a
q: CONSTRUCT (n) MATCH (n) WHERE NOT (1/0 = 1 AND n:Person)
a: «P»
= 0 {"edges":[],"gcore":1,"nodes":[],"paths":[]}

no-number-is-less-than-a-text
$ run q g=a
q: CONSTRUCT (n) MATCH (n) WHERE 1 < n.name OR NOT 1 < n.name
a: «P»
= 0 {"edges":[],"gcore":1,"nodes":[],"paths":[]}

sum-from-the-left
$ run q g=a
q: CONSTRUCT (n) MATCH (n) WHERE 9223372036854775807 - 1 + 1 = 9223372036854775807
a: «P»
= 0 {"edges":[],"gcore":1,"nodes":[«N1»,«P4»],"paths":[]}

sum-from-the-left-past-the-range
$ run q g=a
q: CONSTRUCT (n) MATCH (n) WHERE 9223372036854775807 + 1 - 1 = 9223372036854775807
a: «P»
= 0 {"edges":[],"gcore":1,"nodes":[],"paths":[]}

set-has-a-subset
$ run q g=a
q: CONSTRUCT (n) MATCH (n) WHERE "MIT" SUBSET n.employer
a: «P»
= 0 {"edges":[],"gcore":1,"nodes":[«P4»],"paths":[]}

several-values-are-no-member
$ run q g=a
q: CONSTRUCT (n) MATCH (n) WHERE NOT n.employer IN n.employer
a: «P»
= 0 {"edges":[],"gcore":1,"nodes":[«N1»],"paths":[]}

node-has-what-each-graph-says-of-it
$ run q g=a h=b
q: CONSTRUCT (x), (y), (x) MATCH (x) ON g, (y) ON h
a: {"gcore":1,"nodes":[{"id":1,"labels":["A"]},{"id":2,"labels":["A"]}]}
b: {"gcore":1,"nodes":[{"id":1,"labels":["B"]}]}
= 0 {"edges":[],"gcore":1,"nodes":[{"id":1,"labels":["A","B"],"properties":{}},{"id":2,"labels":["A"],"properties":{}}],"paths":[]}

node-has-what-the-graph-of-its-variable-says
$ run q g=a h=b
q: CONSTRUCT (y) MATCH (x) ON g, (y) ON h
a: {"gcore":1,"nodes":[{"id":1,"labels":["A"]},{"id":2,"labels":["A"]}]}
b: {"gcore":1,"nodes":[{"id":1,"labels":["B"]}]}
= 0 {"edges":[],"gcore":1,"nodes":[{"id":1,"labels":["B"],"properties":{}}],"paths":[]}

two-nodes-without-labels
$ run q g=a
q: CONSTRUCT (n) MATCH (n)
a: {"gcore":1,"nodes":[{"id":1},{"id":2}],"edges":[{"id":11,"from":1,"to":2},{"id":16,"from":2,"to":2}]}
= 0 {"edges":[],"gcore":1,"nodes":[{"id":1,"labels":[],"properties":{}},{"id":2,"labels":[],"properties":{}}],"paths":[]}

edge-from-both-ends-and-loop-once
$ run q g=a
q: CONSTRUCT (n) MATCH (n)-[e]-(m)
a: {"gcore":1,"nodes":[{"id":1},{"id":2}],"edges":[{"id":11,"from":1,"to":2},{"id":16,"from":2,"to":2}]}
= 0 {"edges":[],"gcore":1,"nodes":[{"id":1,"labels":[],"properties":{}},{"id":2,"labels":[],"properties":{}}],"paths":[]}

loop-alone-where-its-ends-are-one
$ run q g=a
q: CONSTRUCT (n) MATCH (n)-[e]-(m) WHERE n = m
a: {"gcore":1,"nodes":[{"id":1},{"id":2}],"edges":[{"id":11,"from":1,"to":2},{"id":16,"from":2,"to":2}]}
= 0 {"edges":[],"gcore":1,"nodes":[{"id":2,"labels":[],"properties":{}}],"paths":[]}

edge-without-names-of-its-parts
$ run q g=a
q: CONSTRUCT (m) MATCH ()-[]->(m) WHERE TRUE = TRUE AND 1 = 1
a: {"gcore":1,"nodes":[{"id":1},{"id":2}],"edges":[{"id":11,"from":1,"to":2},{"id":16,"from":2,"to":2}]}
= 0 {"edges":[],"gcore":1,"nodes":[{"id":2,"labels":[],"properties":{}}],"paths":[]}
"##;

#[test]
fn values_and_patterns_come_to_what_is_due(rt: HostRuntime) -> Result<(), Fail> {
    assert_eq!(rt; first_failing(rt.alloc(), CASES)?, None);
    Ok(())
}
