// Query files whose characters or tokens are refused, with the place.
use super::first_failing;
use std::test::Fail;

const CASES: &str = r##"
byte-that-is-no-utf8-l1
$ run q S=s
q: «byte 255»
s: «S»
= 3 gcore: L1 NotUtf8 1:1

dollar-sign-l2
$ run q S=s
q: CONSTRUCT (n) MATCH (n) $
s: «S»
= 3 gcore: L2 BadCharacter 1:25

text-without-closing-quote-l3
$ run q S=s
q: CONSTRUCT (n) MATCH (n) WHERE n.a = "x
s: «S»
= 3 gcore: L3 OpenText 1:37

number-past-the-limit-l4
$ run q S=s
q: CONSTRUCT (n) MATCH (n) WHERE n.a = 9223372036854775808
s: «S»
= 3 gcore: L4 NumberTooLarge 1:37

sixty-five-open-brackets-p1
$ run q S=s
q: CONSTRUCT «65×(»
s: «S»
= 3 gcore: P1 TooDeep 1:75

sixty-five-brackets-in-a-condition-p1
$ run q S=s
q: CONSTRUCT (n) MATCH (n) WHERE «65×(»n.a = 1«65×)»
s: «S»
= 3 gcore: P1 TooDeep 1:95

name-item-before-closing-bracket-p2
$ run q S=s
q: CONSTRUCT n) MATCH (n)
s: «S»
= 3 gcore: P2 Syntax 1:12

node-that-ends-with-the-text-p2
$ run q S=s
q: CONSTRUCT (n) MATCH (n
s: «S»
= 3 gcore: P2 Syntax 1:23

second-comparison-in-a-row-p2
$ run q S=s
q: CONSTRUCT (n) MATCH (n) WHERE n.a = 1 = 2
s: «S»
= 3 gcore: P2 Syntax 1:39

edge-that-ends-with-the-text-p2
$ run q S=s
q: CONSTRUCT (n) MATCH (n)-[e]
s: «S»
= 3 gcore: P2 Syntax 1:28

view-without-as-p2
$ run q S=s
q: GRAPH VIEW g (
s: «S»
= 3 gcore: P2 Syntax 1:14

text-after-the-name-date-p2
$ run q S=s
q: CONSTRUCT (n) MATCH (n) WHERE n.d = DATE "2018-02-30"
s: «S»
= 3 gcore: P2 Syntax 1:42

date-not-known-yet-p2
$ run q S=s
q: CONSTRUCT (n) MATCH (n) WHERE n.d = DATE "2018-02-28"
s: «S»
= 3 gcore: P2 Syntax 1:42

location-query-not-known-yet-p2
$ run q g=s
q: CONSTRUCT (n) MATCH (n) ON (h)
s: «S»
= 3 gcore: P2 Syntax 1:28

empty-query-file-p2
$ run q S=s
q: «»
s: «S»
= 3 gcore: P2 Syntax 1:1

place-on-the-second-line-p2
$ run q S=s
q: CONSTRUCT (n)«line»MATCH (n
s: «S»
= 3 gcore: P2 Syntax 2:9

reserved-word-as-name-p2
$ run q S=s
q: CONSTRUCT (COST) MATCH (n)
s: «S»
= 3 gcore: P2 Syntax 1:12

lower-case-keyword-p2
$ run q S=s
q: CONSTRUCT (n) match (n)
s: «S»
= 3 gcore: P2 Syntax 1:15

unknown-escape-l2
$ run q S=s
q: CONSTRUCT (n) MATCH (n) WHERE n.a = "\q"
s: «S»
= 3 gcore: L2 BadCharacter 1:38

backslash-at-the-end-l3
$ run q S=s
q: CONSTRUCT (n) MATCH (n) WHERE n.a = "x\
s: «S»
= 3 gcore: L3 OpenText 1:37

character-before-syntax-l2
$ run q S=s
q: CONSTRUCT $ (
s: «S»
= 3 gcore: L2 BadCharacter 1:11

depth-before-syntax-p1
$ run q S=s
q: MATCH «65×(»
s: «S»
= 3 gcore: P1 TooDeep 1:71

bytes-before-characters-l1
$ run q S=s
q: «byte 36»«byte 255»
s: «S»
= 3 gcore: L1 NotUtf8 1:2

bad-byte-before-a-bad-character-l1
$ run q g=a
a: «labels»
q: x«line» $«byte 255»
= 3 gcore: L1 NotUtf8 2:3

backslash-in-a-text-of-two-lines-l2
$ run q g=a
a: «labels»
q: a«line»'b\c
= 3 gcore: L2 BadCharacter 2:3

open-text-of-escapes-l3
$ run q g=a
a: «labels»
q: '«line»\n\'
= 3 gcore: L3 OpenText 1:1

form-feed-l2
$ run q g=a
a: «labels»
q: «byte 12»
= 3 gcore: L2 BadCharacter 1:1

letter-that-is-not-ascii-l2
$ run q g=a
a: «labels»
q: x«line» é
= 3 gcore: L2 BadCharacter 2:2

two-alternatives-and-a-star
$ run q g=a
a: «labels»
q: PATH v = (x)-[]->(y) CONSTRUCT (n) MATCH (n)-/<:knows- | _* (!:Person ~v)>/->(m)
= 0 {"edges":[],"gcore":1,"nodes":[],"paths":[]}

expression-in-two-brackets
$ run q g=a
a: «labels»
q: CONSTRUCT (n) MATCH (n)-/<((_-))>/->(m)
= 0 {"edges":[],"gcore":1,"nodes":[],"paths":[]}

bracket-that-closes-nothing-in-an-expression-p2
$ run q g=a
a: «labels»
q: CONSTRUCT (n) MATCH (n)-/<:a ) :b>/->(m)
= 3 gcore: P2 Syntax 1:30

expression-that-ends-with-the-text-p2
$ run q g=a
a: «labels»
q: CONSTRUCT (n) MATCH (n)-/<(:a |
= 3 gcore: P2 Syntax 1:32
"##;

#[test]
fn texts_come_to_what_is_due(rt: HostRuntime) -> Result<(), Fail> {
    assert_eq!(rt; first_failing(rt.alloc(), CASES)?, None);
    Ok(())
}
