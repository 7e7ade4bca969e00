// Words of no form, files that can't be read or are too large, and the first queries.
use super::first_failing;
use std::test::Fail;

const CASES: &str = r##"
persons-by-label
$ run q g=a
a: «labels»
q: CONSTRUCT (v) MATCH (v:Person)
= 0 {"edges":[],"gcore":1,"nodes":[{"id":1,"labels":["Person"],"properties":{}}],"paths":[]}

persons-by-label-with-line-feed
$ run q g=a
a: «labels»
q: CONSTRUCT (v) MATCH (v:Person)«line»
= 0 {"edges":[],"gcore":1,"nodes":[{"id":1,"labels":["Person"],"properties":{}}],"paths":[]}

label-on-empty-graph
$ run q g=a
a: {"gcore":1}
q: CONSTRUCT (v) MATCH (v:Person)
= 0 {"edges":[],"gcore":1,"nodes":[],"paths":[]}

no-words-refused
$
= 2 gcore: usage

run-without-graph-refused
$ run q
= 2 gcore: usage

run-with-one-name-twice-refused
$ run q g=a g=b
= 2 gcore: usage

run-with-reserved-name-refused
$ run q ON=a
= 2 gcore: usage

run-with-empty-file-word-refused
$ run q g=
= 2 gcore: usage

check-without-file-refused
$ check
= 2 gcore: usage

unknown-command-refused
$ walk q g=a
= 2 gcore: usage

make-ring-of-no-nodes-refused
$ make ring 0 0
= 2 gcore: usage

missing-graph-file-refused
$ run q g=zz
q: CONSTRUCT (v) MATCH (v:Person)
= 6 gcore: cannot read zz

table-is-no-form-yet
$ table q g=a
= 2 gcore: usage

klist-is-no-form-yet
$ klist q g=a
= 2 gcore: usage

kcheck-is-no-form-yet
$ kcheck c
= 2 gcore: usage

why-is-no-form-yet
$ why 1 q g=a
= 2 gcore: usage

graph-named-date-accepted
$ run q DATE=a
a: «labels»
q: CONSTRUCT (v) MATCH (v:Person)
= 0 {"edges":[],"gcore":1,"nodes":[{"id":1,"labels":["Person"],"properties":{}}],"paths":[]}

pair-without-equals-sign-refused
$ run q g
= 2 gcore: usage

pair-without-name-refused
$ run q =a
= 2 gcore: usage

name-that-begins-with-a-digit-refused
$ run q 1g=a
= 2 gcore: usage

empty-query-word-refused
$ run «» g=a
= 2 gcore: usage

check-of-empty-word-refused
$ check «»
= 2 gcore: usage

check-of-two-words-refused
$ check a q
= 2 gcore: usage

nine-graphs-refused
$ run q b=a c=a d=a e=a f=a g=a h=a i=a j=a
= 2 gcore: usage

make-ring-past-its-limit-refused
$ make ring 2001 0
= 2 gcore: usage

make-random-past-its-limit-refused
$ make random 32769 0
= 2 gcore: usage

make-start-past-its-limit-refused
$ make ring 5 2147483648
= 2 gcore: usage

make-size-of-eleven-digits-refused
$ make ring 00000000005 0
= 2 gcore: usage

make-of-unknown-kind-refused
$ make star 5 0
= 2 gcore: usage

why-of-seventeen-digits-refused
$ why 12345678901234567 q g=a
= 2 gcore: usage

why-past-the-greatest-identity-refused
$ why 9007199254740992 q g=a
= 2 gcore: usage

pair-split-at-its-first-equals-sign
$ run q g=a=b
a=b: «labels»
q: CONSTRUCT (v) MATCH (v:Person)
= 0 {"edges":[],"gcore":1,"nodes":[{"id":1,"labels":["Person"],"properties":{}}],"paths":[]}

table-with-reserved-name-refused
$ table q SELECT=a
= 2 gcore: usage

run-with-a-name-reserved-in-tables-alone
$ run q SELECT=a
a: «labels»
q: CONSTRUCT (v) MATCH (v:Person)
= 0 {"edges":[],"gcore":1,"nodes":[{"id":1,"labels":["Person"],"properties":{}}],"paths":[]}

graph-file-before-the-words-end
$ run q g
= 2 gcore: usage

command-of-two-files-of-one-name-too-many
$ check c d
= 2 gcore: usage

certificate-without-graph-refused
$ cert q
= 2 gcore: usage
"##;

#[test]
fn command_lines_come_to_what_is_due(rt: HostRuntime) -> Result<(), Fail> {
    assert_eq!(rt; first_failing(rt.alloc(), CASES)?, None);
    Ok(())
}
