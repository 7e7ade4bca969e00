// Sessions that are explained. Each line was worked out by hand from the rule by which steps are chosen.
use super::first_failing;
use std::test::Fail;

const CASES: &str = r##"
plan-of-persons-interested-in-wagner
$ explain q social=w
q: CONSTRUCT (n) MATCH (n:Person)-[:hasInterest]->(t:Tag) WHERE t.name = "Wagner"
w: «W»
= 0 query 1«line»match«line»scan 3«line»filter 1«line»expand 2«line»check 1

plan-of-a-search-over-a-view
$ explain q S=s
q: PATH w = (x)-[e:knows]->(y) COST 10/(1+e.msgs) CONSTRUCT (n)-/@p {cost:=c}/->(m) MATCH (n)-/p<~w*> COST c/->(m) WHERE n.name = "Ann" AND m.name = "Cem"
s: «S»
= 0 query 1«line»view w on S«line»scan 1«line»expand 2«line»check 3«line»match«line»scan 1«line»filter 1«line»search 2«line»filter 2«line»check 3

plans-of-optional-blocks-and-of-exists-in-exists
$ explain q S=s
q: CONSTRUCT (n) MATCH (n:Person)-[e:knows]->(m {name=v}) WHERE n.name = "Ann" AND EXISTS (CONSTRUCT () MATCH (m)-[f]->(k) WHERE n.name = "Ann" AND EXISTS (CONSTRUCT () MATCH (k)-[:knows]->(k))) OPTIONAL (m)-[g]->(l)
s: «S»
= 0 query 1«line»match«line»scan 1«line»filter 1«line»expand 2«line»filter 2«line»check 3«line»expand 4«line»optional 1«line»scan 1«line»expand 2«line»check 3«line»exists 1«line»check 1«line»filter 1«line»expand 2«line»filter 2«line»check 3«line»exists 2«line»check 1«line»check 3«line»expand 2

plans-of-heads-come-first-and-views-by-graph
$ explain q S=s
q: GRAPH h AS (CONSTRUCT (n) MATCH (n:Person)) PATH w = (x)-[e]->(y) CONSTRUCT (n) MATCH (n)-/<~w>/->(m), (n)-/<~w>/->(k) ON h UNION S; CONSTRUCT (n) MATCH (n)
s: «S»
= 0 query 1«line»match«line»scan 1«line»query 2«line»view w on S«line»scan 1«line»expand 2«line»check 3«line»view w on h«line»scan 1«line»expand 2«line»check 3«line»match«line»scan 1«line»check 4«line»search 2«line»check 3«line»search 5«line»check 6«line»query 3«line»match«line»scan 1

plans-of-graph-views-count-too
$ explain q S=s
q: GRAPH VIEW v AS (CONSTRUCT (n) MATCH (n)); PATH w = (x)-[e]->(y) CONSTRUCT (n) MATCH (n)-/<~w>/->(m) ON v
s: «S»
= 0 query 1«line»match«line»scan 1«line»query 2«line»view w on v«line»scan 1«line»expand 2«line»check 3«line»match«line»scan 1«line»search 2«line»check 3

plans-on-both-sides-of-a-union
$ explain q S=s
q: CONSTRUCT (n) MATCH (n) UNION (CONSTRUCT (n) MATCH (n)-[e]->(m)) MINUS S
s: «S»
= 0 query 1«line»match«line»scan 1«line»query 2«line»match«line»scan 1«line»expand 2«line»check 3

plan-with-a-condition-without-variables
$ explain q S=s
q: CONSTRUCT (n) MATCH (n) WHERE n.name = "Ann" AND 1 = 1
s: «S»
= 0 query 1«line»match«line»filter 2«line»scan 1«line»filter 1

plan-that-scans-stored-paths-first
$ explain q S=s
q: CONSTRUCT (n) MATCH (n:Person)-/@p:way/->(m:Boss)
s: «P»
= 0 query 1«line»match«line»scan 2«line»check 1«line»check 3

plan-that-counts-each-label-once
$ explain q S=s
q: CONSTRUCT (n) MATCH (x:Boss|Person|Boss), (n), (y:Boss|Boss)
s: «P»
= 0 query 1«line»match«line»scan 3«line»scan 2«line»scan 1

plan-of-a-found-path-whose-left-node-comes-last
$ explain q S=s
q: CONSTRUCT (n) MATCH (m), (n)-/p<:knows*>/->(m)
s: «S»
= 0 query 1«line»match«line»scan 1«line»check 4«line»scan 2«line»search 3

no-plan-of-a-graph-by-name
$ explain q S=s
q: S UNION S; S MINUS (CONSTRUCT (n) MATCH (n))
s: «S»
= 0 query 1«line»match«line»scan 1

no-plans-at-a-fault
$ explain q S=s
q: CONSTRUCT (n) MATCH (n); CONSTRUCT (n {x := 1/0}) MATCH (n)
s: «S»
= 1 gcore: F2 ZeroDivisor 1:40 row 0

no-plans-of-a-query-file-that-is-refused
$ explain q S=s
q: CONSTRUCT n) MATCH (n)
s: «S»
= 3 gcore: P2 Syntax 1:12

no-plans-of-a-query-file-that-breaks-a-rule
$ explain q S=s
q: CONSTRUCT (n) MATCH (n) ON h
s: «S»
= 4 gcore: S1 UnknownGraph 1:28

no-plans-over-a-graph-file-that-breaks-a-rule
$ explain q S=s
q: CONSTRUCT (n) MATCH (n)
s: {"gcore":3}
= 5 gcore: G2 WrongShape file in s

no-plans-over-a-missing-graph-file
$ explain q S=zz
q: CONSTRUCT (n) MATCH (n)
= 6 gcore: cannot read zz
"##;

#[test]
fn sessions_are_explained_as_is_due(rt: HostRuntime) -> Result<(), Fail> {
    assert_eq!(rt; first_failing(rt.alloc(), CASES)?, None);
    Ok(())
}
