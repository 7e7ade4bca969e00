// Graph files that are read, and those that break a rule.
use super::first_failing;
use std::test::Fail;

const CASES: &str = r##"
absent-label-on-sample
$ run q S=s
q: CONSTRUCT (n) MATCH (n:City)
s: «S»
= 0 {"edges":[],"gcore":1,"nodes":[],"paths":[]}

persons-keep-their-properties
$ run q S=s
q: CONSTRUCT (n) MATCH (n:Person)
s: «S»
= 0 {"edges":[],"gcore":1,"nodes":[«N1»,«N2»,«N3»,«N4»,«N5»],"paths":[]}

first-graph-is-the-default
$ run q g=a S=s
a: {"gcore":1,"nodes":[{"id":30,"labels":["Person"]}]}
s: «S»
q: CONSTRUCT (v) MATCH (v:Person)
= 0 {"edges":[],"gcore":1,"nodes":[{"id":30,"labels":["Person"],"properties":{}}],"paths":[]}

one-file-under-two-names
$ run q g=a h=a
a: «labels»
q: CONSTRUCT (v) MATCH (v:Person)
= 0 {"edges":[],"gcore":1,"nodes":[{"id":1,"labels":["Person"],"properties":{}}],"paths":[]}

missing-end-refused
$ run q g=a
a: {"gcore":1,"nodes":[{"id":1}],"edges":[{"id":2,"from":1,"to":3}]}
q: CONSTRUCT (v) MATCH (v:Person)
= 5 gcore: G5 NoEnd edges[0] in a

missing-end-refused-before-the-query-is-read
$ run q g=a
a: {"gcore":1,"nodes":[{"id":1}],"edges":[{"id":2,"from":1,"to":3}]}
q: no query (
= 5 gcore: G5 NoEnd edges[0] in a

missing-end-refused-without-query-file
$ run q g=a
a: {"gcore":1,"nodes":[{"id":1}],"edges":[{"id":2,"from":1,"to":3}]}
= 5 gcore: G5 NoEnd edges[0] in a

identity-of-another-kind-in-second-file-refused
$ run q g=a h=b
a: {"gcore":1,"nodes":[{"id":1}]}
b: {"gcore":1,"nodes":[{"id":2},{"id":3}],"edges":[{"id":1,"from":2,"to":3}]}
q: CONSTRUCT (v) MATCH (v:Person)
= 5 gcore: G10 Incoherent edges[0] 1 in b

walk-that-joins-no-edge-refused
$ run q g=a
a: {"gcore":1,"nodes":[{"id":2},{"id":3}],"edges":[{"id":12,"from":2,"to":3}],"paths":[{"id":50,"walk":[3,12,3]}]}
q: CONSTRUCT (n)-/@p/->(m) MATCH (n)-/@p/->(m)
= 5 gcore: G6 BadWalk paths[0] in a

broken-json-g1
$ run q g=a
a: {"gcore":1
q: CONSTRUCT (v) MATCH (v:Person)
= 5 gcore: G1 NotJson in a

version-three-g2
$ run q g=a
a: {"gcore":3}
q: CONSTRUCT (v) MATCH (v:Person)
= 5 gcore: G2 WrongShape file in a

identity-past-the-limit-g3
$ run q g=a
a: {"gcore":1,"nodes":[{"id":9007199254740992}]}
q: CONSTRUCT (v) MATCH (v:Person)
= 5 gcore: G3 IdTooLarge nodes[0] in a

identity-twice-g4
$ run q g=a
a: {"gcore":1,"nodes":[{"id":1},{"id":1}]}
q: CONSTRUCT (v) MATCH (v:Person)
= 5 gcore: G4 IdTwice nodes[1] in a

label-that-is-no-word-g7
$ run q g=a
a: {"gcore":1,"nodes":[{"id":1,"labels":["a b"]}]}
q: CONSTRUCT (v) MATCH (v:Person)
= 5 gcore: G7 BadLabel nodes[0] in a

property-name-that-is-no-word-g8
$ run q g=a
a: {"gcore":1,"nodes":[{"id":1,"properties":{"a b":1}}]}
q: CONSTRUCT (v) MATCH (v:Person)
= 5 gcore: G8 BadName nodes[0] in a

null-value-g9
$ run q g=a
a: {"gcore":1,"nodes":[{"id":1,"properties":{"a":null}}]}
q: CONSTRUCT (v) MATCH (v:Person)
= 5 gcore: G9 NotLiteral nodes[0] in a

nesting-of-one-hundred-and-twenty-seven-g2
$ run q g=a
a: {"gcore":1,"nodes":«126×[»«126×]»}
q: CONSTRUCT (v) MATCH (v:Person)
= 5 gcore: G2 WrongShape nodes[0] in a

nesting-of-one-hundred-and-twenty-eight-g1
$ run q g=a
a: {"gcore":1,"nodes":«127×[»«127×]»}
q: CONSTRUCT (v) MATCH (v:Person)
= 5 gcore: G1 NotJson in a

date-in-a-file-of-version-one-g9
$ run q g=a
a: {"gcore":1,"nodes":[{"id":1,"properties":{"d":{"date":"2018-06-10"}}}]}
q: CONSTRUCT (v) MATCH (v:Person)
= 5 gcore: G9 NotLiteral nodes[0] in a

version-two-not-known-yet-g2
$ run q g=a
a: {"gcore":2,"nodes":[{"id":1,"properties":{"d":{"date":"2018-06-10"}}}]}
q: CONSTRUCT (v) MATCH (v:Person)
= 5 gcore: G2 WrongShape file in a

eight-graphs
$ run q b=a c=a d=a e=a f=a g=a h=a i=a
a: «labels»
q: CONSTRUCT (v) MATCH (v:Person)
= 0 {"edges":[],"gcore":1,"nodes":[{"id":1,"labels":["Person"],"properties":{}}],"paths":[]}

array-as-graph-file-g2
$ run q g=a
a: []
q: CONSTRUCT (v) MATCH (v:Person)
= 5 gcore: G2 WrongShape file in a

unknown-key-g2
$ run q g=a
a: {"gcore":1,"x":1}
q: CONSTRUCT (v) MATCH (v:Person)
= 5 gcore: G2 WrongShape file in a

object-as-edges-g2
$ run q g=a
a: {"gcore":1,"edges":{}}
q: CONSTRUCT (v) MATCH (v:Person)
= 5 gcore: G2 WrongShape file in a

node-without-identity-g2
$ run q g=a
a: {"gcore":1,"nodes":[{}]}
q: CONSTRUCT (v) MATCH (v:Person)
= 5 gcore: G2 WrongShape nodes[0] in a

negative-identity-g2
$ run q g=a
a: {"gcore":1,"nodes":[{"id":-1}]}
q: CONSTRUCT (v) MATCH (v:Person)
= 5 gcore: G2 WrongShape nodes[0] in a

text-as-labels-g2
$ run q g=a
a: {"gcore":1,"nodes":[{"id":1,"labels":"A"}]}
q: CONSTRUCT (v) MATCH (v:Person)
= 5 gcore: G2 WrongShape nodes[0] in a

number-as-label-g7
$ run q g=a
a: {"gcore":1,"nodes":[{"id":1,"labels":[1]}]}
q: CONSTRUCT (v) MATCH (v:Person)
= 5 gcore: G7 BadLabel nodes[0] in a

empty-label-g7
$ run q g=a
a: {"gcore":1,"nodes":[{"id":1,"labels":[""]}]}
q: CONSTRUCT (v) MATCH (v:Person)
= 5 gcore: G7 BadLabel nodes[0] in a

fraction-as-value-g9
$ run q g=a
a: {"gcore":1,"nodes":[{"id":1,"properties":{"a":1.5}}]}
q: CONSTRUCT (v) MATCH (v:Person)
= 5 gcore: G9 NotLiteral nodes[0] in a

number-of-more-than-sixty-four-bits-g9
$ run q g=a
a: {"gcore":1,"nodes":[{"id":1,"properties":{"a":[1,9223372036854775808]}}]}
q: CONSTRUCT (v) MATCH (v:Person)
= 5 gcore: G9 NotLiteral nodes[0] in a

nodes-are-tested-before-edges
$ run q g=a
a: {"edges":[{"id":1}],"gcore":1,"nodes":[{"id":1},{"id":1}]}
q: CONSTRUCT (v) MATCH (v:Person)
= 5 gcore: G4 IdTwice nodes[1] in a

labels-and-values-are-sets
$ run q g=a
a: {"gcore":1,"nodes":[{"id":1,"labels":["Person","A","Person"],"properties":{"z":[],"k":[2,"b",true,false,1,2,"a"]}}]}
q: CONSTRUCT (v) MATCH (v:Person)
= 0 {"edges":[],"gcore":1,"nodes":[{"id":1,"labels":["A","Person"],"properties":{"k":[false,true,1,2,"a","b"]}}],"paths":[]}

texts-are-printed-as-json
$ run q g=a
a: {"gcore":1,"nodes":[{"id":1,"labels":["Person"],"properties":{"k":"\u00e9\n\u0001\/\""}}]}
q: CONSTRUCT (v) MATCH (v:Person)
= 0 {"edges":[],"gcore":1,"nodes":[{"id":1,"labels":["Person"],"properties":{"k":["é\n\u0001/\""]}}],"paths":[]}

escapes-of-json-are-read
$ run q g=a
a: {"gcore":1,"nodes":[{"id":1,"properties":{"k":"\"\\\/\b\f\n\r\t\u0000\u001F\u007f\u00e9\ud83d\ude00"}}]}
q: CONSTRUCT (v) MATCH (v)
= 0 {"edges":[],"gcore":1,"nodes":[{"id":1,"labels":[],"properties":{"k":["\"\\/\b\f\n\r\t\u0000\u001f«byte 127»é😀"]}}],"paths":[]}

second-edge-without-end-g5
$ run q g=a
a: {"gcore":1,"nodes":[{"id":1}],"edges":[{"id":2,"from":1,"to":1},{"id":3,"from":1,"to":4}]}
q: CONSTRUCT (v) MATCH (v:Person)
= 5 gcore: G5 NoEnd edges[1] in a

values-in-the-order-of-literals
$ run q g=a
a: {"gcore":1,"nodes":[{"id":1,"labels":["b","A","b"],"properties":{"z":[],"k":[10,"b",true,false,-1,10,"a"]}}]}
q: CONSTRUCT (v) MATCH (v)
= 0 {"edges":[],"gcore":1,"nodes":[{"id":1,"labels":["A","b"],"properties":{"k":[false,true,-1,10,"a","b"]}}],"paths":[]}
"##;

#[test]
fn graph_files_come_to_what_is_due(rt: HostRuntime) -> Result<(), Fail> {
    assert_eq!(rt; first_failing(rt.alloc(), CASES)?, None);
    Ok(())
}
