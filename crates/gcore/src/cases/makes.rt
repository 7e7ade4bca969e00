// Graphs that are made, and the line of the answer of their query. The counts of the drawn graphs are those of a
// few lines of another program: it draws the edges by their definition, and goes over them breadth first.
use super::first_failing;
use std::test::Fail;

const CASES: &str = r##"
make-ring-of-five
$ make ring 5 0
= 0 nodes 5 edges 5 reached 5 cost 10 farthest 4

make-ring-of-one
$ make ring 1 0
= 0 nodes 1 edges 1 reached 1 cost 0 farthest 0

make-ring-from-the-greatest-start
$ make ring 5 2147483647
= 0 nodes 5 edges 5 reached 5 cost 10 farthest 4

make-ring-of-two-thousand
$ make ring 2000 0
= 0 nodes 2000 edges 2000 reached 2000 cost 1999000 farthest 1999

make-random-of-one
$ make random 1 7
= 0 nodes 1 edges 5 reached 1 cost 0 farthest 0

make-random-of-ten
$ make random 10 7
= 0 nodes 10 edges 50 reached 10 cost 14 farthest 2

make-random-of-thirty-from-the-greatest-start
$ make random 0000000030 2147483647
= 0 nodes 30 edges 150 reached 30 cost 82 farthest 4

make-random-of-hundred
$ make random 100 1
= 0 nodes 100 edges 500 reached 100 cost 330 farthest 5
"##;

#[test]
fn made_graphs_come_to_what_is_due(rt: HostRuntime) -> Result<(), Fail> {
    assert_eq!(rt; first_failing(rt.alloc(), CASES)?, None);
    Ok(())
}
