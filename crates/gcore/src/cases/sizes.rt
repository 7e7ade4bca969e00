// Query files and graph files at the limits of their sizes and one past them.
use super::first_failing;
use std::test::Fail;

const CASES: &str = r##"
query-file-one-byte-past-the-limit-refused
$ run q g=a
a: «labels»
q: «1048577× »
= 10 gcore: too large q

query-file-of-spaces-at-the-limit-p2
$ run q g=a
a: «labels»
q: «1048576× »
= 3 gcore: P2 Syntax 1:1048577
"##;

const GRAPH_FILES: &str = r##"
graph-file-one-byte-past-the-limit-refused
$ run q g=a
a: «33554433× »
q: CONSTRUCT (v) MATCH (v:Person)
= 10 gcore: too large a

graph-file-of-spaces-at-the-limit-g1
$ run q g=a
a: «33554432× »
q: CONSTRUCT (v) MATCH (v:Person)
= 5 gcore: G1 NotJson in a

one-element-too-many-g11
$ run q g=a
a: {"gcore":1,"nodes":[«1000000×{},»{}]}
q: CONSTRUCT (v) MATCH (v:Person)
= 5 gcore: G11 TooMany in a
"##;

#[test]
fn sizes_come_to_what_is_due(rt: HostRuntime) -> Result<(), Fail> {
    assert_eq!(rt; first_failing(rt.alloc(), CASES)?, None);
    Ok(())
}

#[test]
fn graph_files_of_the_greatest_size_come_to_what_is_due(rt: HostRuntime) -> Result<(), Fail> {
    assert_eq!(rt; first_failing(rt.alloc(), GRAPH_FILES)?, None);
    Ok(())
}
