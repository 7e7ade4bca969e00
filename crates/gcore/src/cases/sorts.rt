// Query files that break a sort rule: the smallest of each rule.
use super::first_failing;
use std::test::Fail;

const CASES: &str = r##"
unknown-graph-after-on-s1
$ run q g=s
q: CONSTRUCT (n) MATCH (n) ON h
s: «S»
= 4 gcore: S1 UnknownGraph 1:28

unknown-view-s2
$ run q g=s
q: CONSTRUCT (n) MATCH (n)-/<~w>/->(m)
s: «S»
= 4 gcore: S2 UnknownView 1:28

unknown-name-in-where-s3
$ run q g=s
q: CONSTRUCT (n) MATCH (n) WHERE m.a = 1
s: «S»
= 4 gcore: S3 UnknownName 1:31

value-as-condition-s4
$ run q g=s
q: CONSTRUCT (n) MATCH (n) WHERE n.a
s: «S»
= 4 gcore: S4 SortClash 1:31

found-path-bound-twice-s5
$ run q g=s
q: CONSTRUCT (n) MATCH (n)-/p<_>/->(m)-/p<_>/->(n)
s: «S»
= 4 gcore: S5 TwiceBound 1:38

variable-shared-by-two-optionals-s6
$ run q g=s
q: CONSTRUCT (n) MATCH (n) OPTIONAL (n)-[]->(a) OPTIONAL (n)-[]->(a)
s: «S»
= 4 gcore: S6 SharedOptional 1:64

length-of-all-path-s7
$ run q g=s
q: CONSTRUCT (n) MATCH (n)-/ALL p<_>/->(m) WHERE length(p) = 1
s: «S»
= 4 gcore: S7 AllNotProjected 1:54

bound-edge-between-other-ends-s8
$ run q g=s
q: CONSTRUCT (n)-[e]->(n) MATCH (n)-[e]->(m)
s: «S»
= 4 gcore: S8 LooseEdge 1:15

variable-grouped-twice-s9
$ run q g=s
q: CONSTRUCT (x GROUP n), (x GROUP n) MATCH (n)
s: «S»
= 4 gcore: S9 TwiceGrouped 1:27

view-without-edge-s10
$ run q g=s
q: PATH w = (x) CONSTRUCT (n) MATCH (n)
s: «S»
= 4 gcore: S10 ViewNeedsEdge 1:6

zero-shortest-s11
$ run q g=s
q: CONSTRUCT (n) MATCH (n)-/0 SHORTEST p<_>/->(m)
s: «S»
= 4 gcore: S11 KOutOfRange 1:26

aggregate-in-where-s12
$ run q g=s
q: CONSTRUCT (n) MATCH (n) WHERE COUNT(*) = 1
s: «S»
= 4 gcore: S12 AggregateHere 1:31

exists-of-a-graph-name-s13
$ run q g=s
q: CONSTRUCT (n) MATCH (n) WHERE EXISTS (g)
s: «S»
= 4 gcore: S13 ExistsForm 1:31

view-named-as-a-graph-s14
$ run q g=s
q: GRAPH VIEW g AS (g)
s: «S»
= 4 gcore: S14 NameTaken 1:12

expression-of-too-many-states-s15
$ run q g=s
q: CONSTRUCT (n) MATCH (n)-/<«512×_ »_>/->(m)
s: «S»
= 4 gcore: S15 TooLarge 1:26

unknown-graph-on-the-third-line-s1
$ run q g=a h=a
a: «labels»
q: CONSTRUCT (n)«line»MATCH (n) ON g,«line»  (n) ON k
= 4 gcore: S1 UnknownGraph 3:10
"##;

#[test]
fn sort_rules_come_to_what_is_due(rt: HostRuntime) -> Result<(), Fail> {
    assert_eq!(rt; first_failing(rt.alloc(), CASES)?, None);
    Ok(())
}
