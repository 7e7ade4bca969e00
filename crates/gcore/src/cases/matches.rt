// Queries of a MATCH, and values and conditions in its WHERE.
use super::first_failing;
use std::test::Fail;

const CASES: &str = r##"
every-node-on-the-label-graph
$ run q g=a
a: «labels»
q: CONSTRUCT (v) MATCH (v)
= 0 {"edges":[],"gcore":1,"nodes":[{"id":1,"labels":["Person"],"properties":{}},{"id":2,"labels":["City"],"properties":{}}],"paths":[]}

last-semicolon-changes-nothing
$ run q g=a
a: «labels»
q: CONSTRUCT (v) MATCH (v:Person);
= 0 {"edges":[],"gcore":1,"nodes":[{"id":1,"labels":["Person"],"properties":{}}],"paths":[]}

sixty-four-brackets-in-a-condition
$ run q S=s
q: CONSTRUCT (n) MATCH (n) WHERE «64×(»n.a = 1«64×)»
s: «S»
= 0 {"edges":[],"gcore":1,"nodes":[],"paths":[]}

every-node-of-sample
$ run q S=s
q: CONSTRUCT (n) MATCH (n)
s: «S»
= 0 {"edges":[],"gcore":1,"nodes":[«N1»,«N2»,«N3»,«N4»,«N5»],"paths":[]}

several-values-equal-no-single-one
$ run q S=s
q: CONSTRUCT (n) MATCH (n) WHERE n.employer = "MIT"
s: «S»
= 0 {"edges":[],"gcore":1,"nodes":[],"paths":[]}

several-values-hold-a-member
$ run q S=s
q: CONSTRUCT (n) MATCH (n) WHERE "MIT" IN n.employer
s: «S»
= 0 {"edges":[],"gcore":1,"nodes":[«N4»],"paths":[]}

persons-interested-in-wagner
$ run q social=w
q: CONSTRUCT (n) MATCH (n:Person)-[:hasInterest]->(t:Tag) WHERE t.name = "Wagner"
w: «W»
= 0 {"edges":[],"gcore":1,"nodes":[«Celine»],"paths":[]}

comments-and-white-space
$ run q S=s
q: # every person«return»«line»«tab»CONSTRUCT(n)MATCH # here«line»(n)
s: «S»
= 0 {"edges":[],"gcore":1,"nodes":[«N1»,«N2»,«N3»,«N4»,«N5»],"paths":[]}

division-drops-its-fraction
$ run q S=s
q: CONSTRUCT (n) MATCH (n) WHERE 7 / -2 = -3
s: «S»
= 0 {"edges":[],"gcore":1,"nodes":[«N1»,«N2»,«N3»,«N4»,«N5»],"paths":[]}

remainder-of-a-negative-number
$ run q S=s
q: CONSTRUCT (n) MATCH (n) WHERE -7 % 3 = -1
s: «S»
= 0 {"edges":[],"gcore":1,"nodes":[«N1»,«N2»,«N3»,«N4»,«N5»],"paths":[]}

least-number-modulo-minus-one
$ run q S=s
q: CONSTRUCT (n) MATCH (n) WHERE (-9223372036854775807 - 1) % -1 = 0
s: «S»
= 0 {"edges":[],"gcore":1,"nodes":[«N1»,«N2»,«N3»,«N4»,«N5»],"paths":[]}

sum-over-a-missing-property-is-empty
$ run q S=s
q: CONSTRUCT (n) MATCH (n) WHERE n.none + 1 = n.none
s: «S»
= 0 {"edges":[],"gcore":1,"nodes":[«N1»,«N2»,«N3»,«N4»,«N5»],"paths":[]}

missing-property-is-not-less
$ run q S=s
q: CONSTRUCT (n) MATCH (n) WHERE NOT n.none < 1
s: «S»
= 0 {"edges":[],"gcore":1,"nodes":[«N1»,«N2»,«N3»,«N4»,«N5»],"paths":[]}

order-of-several-values-is-unknown
$ run q S=s
q: CONSTRUCT (n) MATCH (n) WHERE n.employer < "Z"
s: «S»
= 0 {"edges":[],"gcore":1,"nodes":[],"paths":[]}

negated-unknown-is-unknown
$ run q S=s
q: CONSTRUCT (n) MATCH (n) WHERE NOT n.employer < "Z"
s: «S»
= 0 {"edges":[],"gcore":1,"nodes":[«N1»,«N2»,«N3»,«N5»],"paths":[]}

division-by-zero-in-a-condition-is-unknown
$ run q S=s
q: CONSTRUCT (n) MATCH (n) WHERE NOT 1/0 = 1
s: «S»
= 0 {"edges":[],"gcore":1,"nodes":[],"paths":[]}

unknown-or-true
$ run q S=s
q: CONSTRUCT (n) MATCH (n) WHERE NOT (1/0 = 1) OR 1 = 1
s: «S»
= 0 {"edges":[],"gcore":1,"nodes":[«N1»,«N2»,«N3»,«N4»,«N5»],"paths":[]}

empty-set-is-a-subset
$ run q S=s
q: CONSTRUCT (n) MATCH (n) WHERE n.employer SUBSET "MIT"
s: «S»
= 0 {"edges":[],"gcore":1,"nodes":[«N1»,«N2»,«N3»,«N5»],"paths":[]}

label-test
$ run q S=s
q: CONSTRUCT (n) MATCH (n) WHERE n:Person AND NOT n:City
s: «S»
= 0 {"edges":[],"gcore":1,"nodes":[«N1»,«N2»,«N3»,«N4»,«N5»],"paths":[]}

label-test-and-two-graphs
$ run q g=a
a: «labels»
q: CONSTRUCT (v), (w) MATCH (v:Person), (w) ON g WHERE v = w
= 0 {"edges":[],"gcore":1,"nodes":[{"id":1,"labels":["Person"],"properties":{}}],"paths":[]}

every-graph-file-has-a-name-that-is-known
$ run q g=a h=a
a: «labels»
q: CONSTRUCT (n) MATCH (n:City) ON g, (n) ON h
= 0 {"edges":[],"gcore":1,"nodes":[{"id":2,"labels":["City"],"properties":{}}],"paths":[]}

one-name-on-two-graphs-is-read-in-the-first
$ run q S=s T=t
q: CONSTRUCT (n) MATCH (n) ON S, (n) ON T
s: «S»
t: {"gcore":1,"nodes":[{"id":2},{"id":9}]}
= 0 {"edges":[],"gcore":1,"nodes":[«N2»],"paths":[]}

one-name-on-two-graphs-turned
$ run q S=s T=t
q: CONSTRUCT (n) MATCH (n) ON T, (n) ON S
s: «S»
t: {"gcore":1,"nodes":[{"id":2},{"id":9}]}
= 0 {"edges":[],"gcore":1,"nodes":[{"id":2,"labels":[],"properties":{}}],"paths":[]}
"##;

#[test]
fn matches_come_to_what_is_due(rt: HostRuntime) -> Result<(), Fail> {
    assert_eq!(rt; first_failing(rt.alloc(), CASES)?, None);
    Ok(())
}
