// Patterns that find the first walks between two nodes, with their costs, and paths that store what was found.
use super::first_failing;
use std::test::Fail;

const CASES: &str = r##"
shortest-walk-stored-with-its-cost
$ run q S=s
q: CONSTRUCT (n)-/@p:way {cost:=c}/->(m) MATCH (n)-/p<:knows*> COST c/->(m) WHERE n.name = "Ann" AND m.name = "Cem"
s: «S»
= 0 {"edges":[«E11»,«E12»],"gcore":1,"nodes":[«N1»,«N2»,«N3»],"paths":[{"id":18,"labels":["way"],"properties":{"cost":[2]},"walk":[1,11,2,12,3]}]}

four-shortest-walks
$ run q S=s
q: CONSTRUCT (n)-/@p/->(m) MATCH (n)-/4 SHORTEST p<:knows*>/->(m) WHERE n.name = "Ann" AND m.name = "Cem"
s: «S»
= 0 {"edges":[«E11»,«E12»,«E13»,«E14»,«E15»,«E17»],"gcore":1,"nodes":[«N1»,«N2»,«N3»,«N4»],"paths":[{"id":18,"labels":[],"properties":{},"walk":[1,11,2,12,3]},{"id":19,"labels":[],"properties":{},"walk":[1,13,4,14,3]},{"id":20,"labels":[],"properties":{},"walk":[1,17,2,12,3]},{"id":21,"labels":[],"properties":{},"walk":[1,11,2,12,3,15,1,11,2,12,3]}]}

more-walks-asked-for-than-there-are
$ run q S=s
q: CONSTRUCT (n)-/@p/->(m) MATCH (n)-/5 SHORTEST p<:knows :knows>/->(m) WHERE n.name = "Ann" AND m.name = "Cem"
s: «S»
= 0 {"edges":[«E11»,«E12»,«E13»,«E14»,«E17»],"gcore":1,"nodes":[«N1»,«N2»,«N3»,«N4»],"paths":[{"id":18,"labels":[],"properties":{},"walk":[1,11,2,12,3]},{"id":19,"labels":[],"properties":{},"walk":[1,13,4,14,3]},{"id":20,"labels":[],"properties":{},"walk":[1,17,2,12,3]}]}

walk-that-conforms-in-two-ways-counts-once
$ run q S=s
q: CONSTRUCT (n)-/@p/->(m) MATCH (n)-/2 SHORTEST p<(:knows|_)*>/->(m) WHERE n.name = "Ann" AND m.name = "Cem"
s: «S»
= 0 {"edges":[«E11»,«E12»,«E13»,«E14»],"gcore":1,"nodes":[«N1»,«N2»,«N3»,«N4»],"paths":[{"id":18,"labels":[],"properties":{},"walk":[1,11,2,12,3]},{"id":19,"labels":[],"properties":{},"walk":[1,13,4,14,3]}]}

empty-walk-to-the-same-node
$ run q S=s
q: CONSTRUCT (n)-/@p/->(m) MATCH (n)-/p<:knows*>/->(m) WHERE n.name = "Ann" AND m.name = "Ann"
s: «S»
= 0 {"edges":[],"gcore":1,"nodes":[«N1»],"paths":[{"id":18,"labels":[],"properties":{},"walk":[1]}]}

cost-of-the-empty-walk
$ run q S=s
q: CONSTRUCT (n)-/@p {cost:=c}/->(n) MATCH (n)-/p<:likes*> COST c/->(n) WHERE n.name = "Eva"
s: «S»
= 0 {"edges":[],"gcore":1,"nodes":[«N5»],"paths":[{"id":18,"labels":[],"properties":{"cost":[0]},"walk":[5]}]}

the-empty-walk-and-then-a-loop
$ run q S=s
q: CONSTRUCT (n)-/@p {cost := c}/->(n) MATCH (n)-/2 SHORTEST p<:knows*> COST c/->(n) WHERE n.name = "Eva"
s: «S»
= 0 {"edges":[«E16»],"gcore":1,"nodes":[«N5»],"paths":[{"id":18,"labels":[],"properties":{"cost":[0]},"walk":[5]},{"id":19,"labels":[],"properties":{"cost":[1]},"walk":[5,16,5]}]}

no-walk-no-row
$ run q S=s
q: CONSTRUCT (n)-/@p/->(m) MATCH (n)-/p<:knows*>/->(m) WHERE n.name = "Ann" AND m.name = "Eva"
s: «S»
= 0 {"edges":[],"gcore":1,"nodes":[],"paths":[]}

stored-walk-with-its-length-and-a-name-on-it
$ run q S=s
q: CONSTRUCT (n)-/@p:way {cost := c, hops := length(p), over := nodes(p)[1].name}/->(m) WHEN p.cost = length(p) MATCH (n)-/p<:knows*> COST c/->(m) WHERE n.name = "Ann" AND m.name = "Cem"
s: «S»
= 0 {"edges":[«E11»,«E12»],"gcore":1,"nodes":[«N1»,«N2»,«N3»],"paths":[{"id":18,"labels":["way"],"properties":{"cost":[2],"hops":[2],"over":["Bob"]},"walk":[1,11,2,12,3]}]}

one-path-for-all-rows-with-its-walk
$ run q S=s
q: CONSTRUCT (n)-/@p {k := COUNT(*)}/->(m) MATCH (n)-/p<:knows>/->(m), (z) WHERE n.name = "Ann" AND m.name = "Dea"
s: «S»
= 0 {"edges":[«E13»],"gcore":1,"nodes":[«N1»,«N4»],"paths":[{"id":18,"labels":[],"properties":{"k":[5]},"walk":[1,13,4]}]}

stored-walk-at-two-places-with-its-changes
$ run q S=s
q: CONSTRUCT (n)-/@p:A {k := 1}/->(m), (n)-/@p:B/->(m) SET p.j := 2 REMOVE p.k REMOVE p:A MATCH (n)-/p<:knows>/->(m) WHERE n.name = "Ann" AND m.name = "Dea"
s: «S»
= 0 {"edges":[«E13»],"gcore":1,"nodes":[«N1»,«N4»],"paths":[{"id":18,"labels":["B"],"properties":{"j":[2]},"walk":[1,13,4]}]}

identity-of-a-path-that-when-leaves-out
$ run q S=s
q: CONSTRUCT (n)-/@p {len := length(p)}/->(m) WHEN p.len > 0 MATCH (n)-/2 SHORTEST p<:knows*>/->(m) WHERE n.name = "Eva" AND m.name = "Eva"; CONSTRUCT (=x) MATCH (x) WHERE x.name = "Eva"
s: «S»
= 0 {"edges":[«E16»],"gcore":1,"nodes":[«N5»],"paths":[{"id":19,"labels":[],"properties":{"len":[1]},"walk":[5,16,5]}]}«line»{"edges":[],"gcore":1,"nodes":[{"id":20,"labels":["Person"],"properties":{"name":["Eva"]}}],"paths":[]}

optional-path-that-is-not-there
$ run q S=s
q: CONSTRUCT (n), (n)-/@p/->(m) MATCH (n) WHERE n.name = "Eva" OPTIONAL (n)-/p<:likes>/->(m)
s: «S»
= 0 {"edges":[],"gcore":1,"nodes":[«N5»],"paths":[]}
"##;

#[test]
fn found_walks_come_to_what_is_due(rt: HostRuntime) -> Result<(), Fail> {
    assert_eq!(rt; first_failing(rt.alloc(), CASES)?, None);
    Ok(())
}
