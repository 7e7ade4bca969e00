// PATH views: walks over their segments, and costs that are bad or past the range.
use super::first_failing;
use std::test::Fail;

const CASES: &str = r##"
cheapest-walk-over-a-view
$ run q S=s
q: PATH w = (x)-[e:knows]->(y) COST 10/(1+e.msgs) CONSTRUCT (n)-/@p {cost:=c}/->(m) MATCH (n)-/p<~w*> COST c/->(m) WHERE n.name = "Ann" AND m.name = "Cem"
s: «S»
= 0 {"edges":[«E12»,«E17»],"gcore":1,"nodes":[«N1»,«N2»,«N3»],"paths":[{"id":18,"labels":[],"properties":{"cost":[3]},"walk":[1,17,2,12,3]}]}

cost-comes-first-then-edges-then-identities
$ run q g=a
a: {"gcore":1,"nodes":[{"id":1,"labels":["A"]},{"id":2},{"id":3,"labels":["B"]}],"edges":[{"id":11,"from":1,"to":3,"properties":{"km":3}},{"id":12,"from":1,"to":2,"properties":{"km":1}},{"id":13,"from":2,"to":3,"properties":{"km":1}},{"id":14,"from":1,"to":2,"properties":{"km":1}},{"id":15,"from":1,"to":3,"properties":{"km":2}}]}
q: PATH w = (x)-[e]->(y) COST e.km CONSTRUCT (n)-/@p {cost := c}/->(m) MATCH (n:A)-/2 SHORTEST p<~w*> COST c/->(m:B)
= 0 {"edges":[{"from":1,"id":12,"labels":[],"properties":{"km":[1]},"to":2},{"from":2,"id":13,"labels":[],"properties":{"km":[1]},"to":3},{"from":1,"id":15,"labels":[],"properties":{"km":[2]},"to":3}],"gcore":1,"nodes":[{"id":1,"labels":["A"],"properties":{}},{"id":2,"labels":[],"properties":{}},{"id":3,"labels":["B"],"properties":{}}],"paths":[{"id":16,"labels":[],"properties":{"cost":[2]},"walk":[1,15,3]},{"id":17,"labels":[],"properties":{"cost":[2]},"walk":[1,12,2,13,3]}]}

segment-of-cost-zero-f4
$ run q S=s
q: PATH w = (x)-[e:knows]->(y) COST 10/(2+e.msgs) CONSTRUCT (n)-/@p {cost:=c}/->(m) MATCH (n)-/p<~w*> COST c/->(m) WHERE n.name = "Eva" AND m.name = "Eva"
s: «S»
= 1 gcore: F4 BadCost 1:6 walk 2,12,3

cost-of-a-property-that-an-edge-lacks-f4
$ run q g=a
a: {"gcore":1,"nodes":[{"id":1},{"id":2},{"id":3}],"edges":[{"id":11,"from":3,"to":1},{"id":12,"from":1,"to":2,"properties":{"km":1}},{"id":13,"from":2,"to":3}]}
q: PATH w = (x)-[e]->(y) COST e.km CONSTRUCT (n) MATCH (n)-/<~w>/->(m)
= 1 gcore: F4 BadCost 1:6 walk 2,13,3

walk-of-cost-past-range-stored
$ run q S=s
q: PATH w = (x)-[e]->(y) COST 9223372036854775807 CONSTRUCT (n)-/@p/->(m) MATCH (n)-/p<~w ~w>/->(m) WHERE n.name = "Ann" AND m.name = "Cem"
s: «S»
= 0 {"edges":[«E11»,«E12»],"gcore":1,"nodes":[«N1»,«N2»,«N3»],"paths":[{"id":18,"labels":[],"properties":{},"walk":[1,11,2,12,3]}]}

cost-variable-past-range-f5
$ run q S=s
q: PATH w = (x)-[e]->(y) COST 9223372036854775807 CONSTRUCT (n)-/@p/->(m) MATCH (n)-/p<~w ~w> COST c/->(m) WHERE n.name = "Ann" AND m.name = "Cem"
s: «S»
= 1 gcore: F5 CostPastRange 1:97 row 0

cost-past-range-on-the-second-row-f5
$ run q g=a
a: {"gcore":1,"nodes":[{"id":1},{"id":2},{"id":3}],"edges":[{"id":12,"from":1,"to":2},{"id":13,"from":2,"to":3}]}
q: PATH w = (x)-[]->(y) COST 9223372036854775807 CONSTRUCT (n) MATCH (n)-/p<~w ~w*> COST c/->(m)
= 1 gcore: F5 CostPastRange 1:87 row 1

cost-past-range-in-a-condition-is-unknown
$ run q g=a
a: {"gcore":1,"nodes":[{"id":1},{"id":2},{"id":3}],"edges":[{"id":12,"from":1,"to":2},{"id":13,"from":2,"to":3}]}
q: PATH w = (x)-[]->(y) COST 9223372036854775807 CONSTRUCT (n)-/@p {cost := c}/->(m) MATCH (n)-/p<~w ~w*> COST c/->(m) WHERE c > 0
= 0 {"edges":[{"from":1,"id":12,"labels":[],"properties":{},"to":2},{"from":2,"id":13,"labels":[],"properties":{},"to":3}],"gcore":1,"nodes":[{"id":1,"labels":[],"properties":{}},{"id":2,"labels":[],"properties":{}},{"id":3,"labels":[],"properties":{}}],"paths":[{"id":14,"labels":[],"properties":{"cost":[9223372036854775807]},"walk":[1,12,2]},{"id":15,"labels":[],"properties":{"cost":[9223372036854775807]},"walk":[2,13,3]}]}

first-view-in-the-text-has-the-first-bad-cost-f4
$ run q S=s
q: PATH a = (x)-[e]->(y) COST 0 PATH b = (x)-[e]->(y) COST 0 CONSTRUCT (n) MATCH (n)-/<~b>/->(m), (n)-/<~a>/->(m)
s: «S»
= 1 gcore: F4 BadCost 1:6 walk 1,11,2

bad-cost-of-a-view-that-nothing-uses
$ run q S=s
q: PATH a = (x)-[e]->(y) COST 0 CONSTRUCT (n) MATCH (n) WHERE n.name = "Ann"
s: «S»
= 0 {"edges":[],"gcore":1,"nodes":[«N1»],"paths":[]}

bad-cost-of-a-view-in-an-exists-without-rows-f4
$ run q S=s
q: PATH a = (x)-[e]->(y) COST 0 CONSTRUCT (n) MATCH (n:Nobody) WHERE EXISTS (CONSTRUCT () MATCH (n)-/<~a>/->(m))
s: «S»
= 1 gcore: F4 BadCost 1:6 walk 1,11,2

bad-cost-on-the-graph-of-first-use-f4
$ run q g=a h=b
a: {"gcore":1,"nodes":[{"id":1},{"id":2}],"edges":[{"id":3,"from":1,"to":2}]}
b: {"gcore":1,"nodes":[{"id":4},{"id":5}],"edges":[{"id":6,"from":4,"to":5}]}
q: PATH w = (x)-[e]->(y) COST 0 CONSTRUCT (n) MATCH (n)-/<~w>/->(m) ON h, (k)-/<~w>/->(l)
= 1 gcore: F4 BadCost 1:6 walk 4,6,5

cost-past-range-comes-before-a-zero-divisor-f5
$ run q S=s
q: PATH w = (x)-[e]->(y) COST 9223372036854775807 CONSTRUCT (n {k := 1/0}) MATCH (n)-/p<~w ~w> COST c/->(m)
s: «S»
= 1 gcore: F5 CostPastRange 1:98 row 0

first-variable-before-the-first-row-f5
$ run q g=a
a: {"gcore":1,"nodes":[{"id":1},{"id":2},{"id":3}],"edges":[{"id":12,"from":1,"to":2},{"id":13,"from":2,"to":3}]}
q: PATH w = (x)-[e]->(y) COST 9223372036854775807 CONSTRUCT (n) MATCH (n)-/p<~w|~w ~w> COST c/->(m), (n)-/q<~w ~w> COST d/->(k)
= 1 gcore: F5 CostPastRange 1:90 row 1

all-walks-over-a-view-of-two-edges
$ run q S=s
q: PATH t = (x)-[:knows]->()-[:knows]->(y) CONSTRUCT (n)-/p/->(m) MATCH (n)-/ALL p<~t>/->(m) WHERE n.name = "Ann" AND m.name = "Cem"
s: «S»
= 0 {"edges":[«E11»,«E12»,«E13»,«E14»,«E17»],"gcore":1,"nodes":[«N1»,«N2»,«N3»,«N4»],"paths":[]}

friends-on-the-way-to-wagner
$ run q social=w
q: «friends»
w: «W»
= 0 {"edges":[{"from":1,"id":21,"labels":["wagnerFriend"],"properties":{"score":[1]},"to":2}],"gcore":1,"nodes":[«John»,«Peter»],"paths":[]}
"##;

#[test]
fn views_of_paths_come_to_what_is_due(rt: HostRuntime) -> Result<(), Fail> {
    assert_eq!(rt; first_failing(rt.alloc(), CASES)?, None);
    Ok(())
}
