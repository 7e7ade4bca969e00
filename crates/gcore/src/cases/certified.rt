// Certificates that are written of sessions, and that each of them is accepted.
use super::certificates::checked;
use super::{NEVER, first_failing, seen};
use std::alloc::Global;
use std::test::Fail;

const CASES: &str = r##"
one-edge-certificate
$ cert q g=a
a: {"gcore":1,"nodes":[{"id":1},{"id":2}],"edges":[{"id":11,"from":1,"to":2,"labels":["knows"]}]}
q: CONSTRUCT (n) MATCH (n)-/p<:knows>/->(m)
= 0 {"gcore_cert":1,"searches":[{"expression":":knows","graph":{"edges":[{"from":1,"id":11,"labels":["knows"],"properties":{},"to":2}],"gcore":1,"nodes":[{"id":1,"labels":[],"properties":{}},{"id":2,"labels":[],"properties":{}}],"paths":[]},"potentials":[[1,0,"0"],[2,1,"1"]],"segments":[],"start":1,"walks":[{"cost":"1","run":[{"edge":11,"to":1}],"walk":[1,11,2]}]}]}

each-source-has-a-search
$ cert q g=a
a: «Arc»
q: CONSTRUCT (x) MATCH (x)-/p<:A*>/->(y)
= 0 {"gcore_cert":1,"searches":[{"expression":":A*","graph":«Arc»,"potentials":[[1,0,"0"],[1,1,"0"],[1,3,"0"],[2,1,"1"],[2,2,"1"],[2,3,"1"]],"segments":[],"start":1,"walks":[{"cost":"0","run":[{"to":3}],"walk":[1]},{"cost":"1","run":[{"to":1},{"edge":3,"to":2},{"to":3}],"walk":[1,3,2]}]},{"expression":":A*","graph":«Arc»,"potentials":[[2,0,"0"],[2,1,"0"],[2,3,"0"]],"segments":[],"start":2,"walks":[{"cost":"0","run":[{"to":3}],"walk":[2]}]}]}

walks-are-those-of-the-table
$ cert q g=a
a: «Arc»
q: CONSTRUCT (x) MATCH (x)-/p<:A*>/->(y) WHERE x = y
= 0 {"gcore_cert":1,"searches":[{"expression":":A*","graph":«Arc»,"potentials":[[1,0,"0"],[1,1,"0"],[1,3,"0"],[2,1,"1"],[2,2,"1"],[2,3,"1"]],"segments":[],"start":1,"walks":[{"cost":"0","run":[{"to":3}],"walk":[1]}]},{"expression":":A*","graph":«Arc»,"potentials":[[2,0,"0"],[2,1,"0"],[2,3,"0"]],"segments":[],"start":2,"walks":[{"cost":"0","run":[{"to":3}],"walk":[2]}]}]}

segments-of-a-view
$ cert q g=a
a: «Arc»
q: PATH w = (x)-[e:A]->(y) COST 7 CONSTRUCT (x) MATCH (x)-/p<~w>/->(y)
= 0 {"gcore_cert":1,"searches":[{"expression":"~w","graph":«Arc»,"potentials":[[1,0,"0"],[2,1,"7"]],"segments":[{"cost":"7","view":"w","walk":[1,3,2]}],"start":1,"walks":[{"cost":"7","run":[{"segment":0,"to":1}],"walk":[1,3,2]}]}]}

patterns-in-the-order-of-the-text
$ cert q g=a
a: «Arc»
q: CONSTRUCT (x) MATCH (x)-/p<:A>/->(y)-/r<_->/->(z)
= 0 {"gcore_cert":1,"searches":[{"expression":":A","graph":«Arc»,"potentials":[[1,0,"0"],[2,1,"1"]],"segments":[],"start":1,"walks":[{"cost":"1","run":[{"edge":3,"to":1}],"walk":[1,3,2]}]},{"expression":"_-","graph":«Arc»,"potentials":[[1,1,"1"],[2,0,"0"]],"segments":[],"start":2,"walks":[{"cost":"1","run":[{"edge":3,"to":1}],"walk":[2,3,1]}]}]}

an-optional-pattern-has-a-search
$ cert q g=a
a: «Arc»
q: CONSTRUCT (x) MATCH (x) OPTIONAL (x)-/p<:A>/->(y)
= 0 {"gcore_cert":1,"searches":[{"expression":":A","graph":«Arc»,"potentials":[[1,0,"0"],[2,1,"1"]],"segments":[],"start":1,"walks":[{"cost":"1","run":[{"edge":3,"to":1}],"walk":[1,3,2]}]}]}

statements-in-turn
$ cert q g=a
a: «Arc»
q: GRAPH VIEW h AS (CONSTRUCT (x) MATCH (x)-/p<:A>/->(y)); g; CONSTRUCT (x) MATCH (x)-/p<_->/->(y)
= 0 {"gcore_cert":1,"searches":[{"expression":":A","graph":«Arc»,"potentials":[[1,0,"0"],[2,1,"1"]],"segments":[],"start":1,"walks":[{"cost":"1","run":[{"edge":3,"to":1}],"walk":[1,3,2]}]},{"expression":"_-","graph":«Arc»,"potentials":[[1,1,"1"],[2,0,"0"]],"segments":[],"start":2,"walks":[{"cost":"1","run":[{"edge":3,"to":1}],"walk":[2,3,1]}]}]}

both-sides-of-a-union
$ cert q g=a
a: «Arc»
q: (CONSTRUCT (x) MATCH (x)-/p<_->/->(y)) UNION (CONSTRUCT (x) MATCH (x)-/p<:A>/->(y))
= 0 {"gcore_cert":1,"searches":[{"expression":"_-","graph":«Arc»,"potentials":[[1,1,"1"],[2,0,"0"]],"segments":[],"start":2,"walks":[{"cost":"1","run":[{"edge":3,"to":1}],"walk":[2,3,1]}]},{"expression":":A","graph":«Arc»,"potentials":[[1,0,"0"],[2,1,"1"]],"segments":[],"start":1,"walks":[{"cost":"1","run":[{"edge":3,"to":1}],"walk":[1,3,2]}]}]}

two-walks-to-a-node-have-no-search
$ cert q g=a
a: «Arc»
q: CONSTRUCT (x) MATCH (x)-/2 SHORTEST p<:A*>/->(y)
= 0 {"gcore_cert":1,"searches":[]}

a-reach-pattern-has-no-search
$ cert q g=a
a: «Arc»
q: CONSTRUCT (x) MATCH (x)-/<:A*>/->(y)
= 0 {"gcore_cert":1,"searches":[]}

a-pattern-of-an-exists-has-no-search
$ cert q g=a
a: «Arc»
q: CONSTRUCT (x) MATCH (x) WHERE EXISTS (CONSTRUCT () MATCH (x)-/p<:A>/->(y))
= 0 {"gcore_cert":1,"searches":[]}

no-walk-no-search
$ cert q g=a
a: «Arc»
q: CONSTRUCT (x) MATCH (x)-/p<:B>/->(y)
= 0 {"gcore_cert":1,"searches":[]}

a-fault-writes-no-certificate
$ cert q g=a
a: «Arc»
q: CONSTRUCT (x) MATCH (x)-/p<:A>/->(y); CONSTRUCT (x {k := 1/0}) MATCH (x)
= 1 gcore: F2 ZeroDivisor 1:53 row 0

certificate-of-no-query
$ cert q g=a
a: «Arc»
q: CONSTRUCT
= 3 gcore: P2 Syntax 1:10

certificate-over-an-unknown-graph
$ cert q g=a
a: «Arc»
q: CONSTRUCT (x) MATCH (x) ON h
= 4 gcore: S1 UnknownGraph 1:28

certificate-over-no-graph-file
$ cert q g=a
a: {
q: g
= 5 gcore: G1 NotJson in a

certificate-of-a-missing-query
$ cert q g=a
a: «Arc»
= 6 gcore: cannot read q
"##;

// Whether what the call of a case writes, if it ends with the status 0, is accepted as a certificate.
fn is_accepted(alloc: Global, case: &str) -> Result<bool, Fail> {
    let Some((lines, due)) = case.split_once("\n= ") else {
        return Ok(false);
    };
    if !due.starts_with("0 ") {
        return Ok(true);
    }
    let Some((_, lines)) = lines.split_once("\n$ ") else {
        return Ok(false);
    };
    let (words, files) = lines.split_once('\n').unwrap_or((lines, ""));
    let certificate = seen(alloc, words, files, &NEVER)?.out;
    Ok(checked(alloc, certificate)?.status == 0)
}

#[test]
fn certified_sessions_come_to_what_is_due(rt: HostRuntime) -> Result<(), Fail> {
    assert_eq!(rt; first_failing(rt.alloc(), CASES)?, None);
    for case in CASES.trim().split("\n\n") {
        assert!(rt; is_accepted(rt.alloc(), case)?);
    }
    Ok(())
}
