// Query files over a graph `g`, each with a comment that says what it is told, or that it breaks no
// sort rule. They show that the definition of the first breach reads the rules as they are meant.
use super::{NEVER, is_due, seen};
use std::alloc::Global;
use std::test::Fail;

const QUERIES: &str =
    "GRAPH h AS (CONSTRUCT (n) MATCH (n) ON g) CONSTRUCT (n) MATCH (n) ON h; CONSTRUCT (n) MATCH (n) ON h # S1 UnknownGraph 1:100
GRAPH VIEW h AS (g); CONSTRUCT (n), h MATCH (n) ON h; h UNION g MINUS k # S1 UnknownGraph 1:71
GRAPH VIEW h AS (h) # S1 UnknownGraph 1:18
CONSTRUCT (n), z MATCH (n) # S1 UnknownGraph 1:16
CONSTRUCT (n) MATCH (n) ON h # S1 UnknownGraph 1:28
PATH w = (x)-[]->(y) CONSTRUCT (n) MATCH (n)-/<~w>/->(m) WHERE EXISTS (CONSTRUCT () MATCH (n)-/<~w>/->(m)); CONSTRUCT (n) MATCH (n)-/<~w>/->(m) # S2 UnknownView 1:136
CONSTRUCT (n) MATCH (n)-/<~w>/->(m) # S2 UnknownView 1:28
CONSTRUCT (n) MATCH (n), (k) OPTIONAL (n)-[e]->(m) WHERE k.a = 1 # S3 UnknownName 1:58
CONSTRUCT (n) MATCH (n) WHERE m.a = 1 OPTIONAL (n)-[e]->(m) # S3 UnknownName 1:31
CONSTRUCT (n) MATCH (n) WHERE EXISTS (CONSTRUCT () MATCH (n)-[k]->(z)) AND z.a = 1 # S3 UnknownName 1:76
CONSTRUCT (n)-/x/->(m) MATCH (n)-/p<_>/->(m) # S3 UnknownName 1:16
CONSTRUCT (n) SET p:L MATCH (n)-/ALL p<_>/->(m) # S3 UnknownName 1:19
CONSTRUCT (n) SET m.a := 1 MATCH (n), (m) # S3 UnknownName 1:19
CONSTRUCT (n)-/p/->(m) SET p:L MATCH (n)-/p<_>/->(m) # S3 UnknownName 1:28
CONSTRUCT (x {a := x.b}) MATCH (n) # S3 UnknownName 1:20
CONSTRUCT (x) WHEN y.b = n.c MATCH (n) # S3 UnknownName 1:20
CONSTRUCT (x = z) MATCH (n) # S3 UnknownName 1:16
CONSTRUCT (x GROUP z) MATCH (n) # S3 UnknownName 1:20
CONSTRUCT (n) MATCH (n) WHERE z # S3 UnknownName 1:31
PATH w = (x)-[e]->(y) WHERE z.a = 1 COST e.b + 1 CONSTRUCT (n) MATCH (n) # S3 UnknownName 1:29
CONSTRUCT (n) MATCH (n) WHERE m.a = 1 # S3 UnknownName 1:31
CONSTRUCT (n) MATCH (n), (k) WHERE EXISTS (CONSTRUCT () MATCH (n)-[k]->(z)) # S4 SortClash 1:68
CONSTRUCT (n) MATCH (n)-[m]->() OPTIONAL (n)-[e]->(m) # S4 SortClash 1:52
CONSTRUCT (n) MATCH (p), (n)-/p<_>/->(m) # S4 SortClash 1:31
CONSTRUCT (n) MATCH (n)-/p<_> COST n/->(m) # S4 SortClash 1:36
CONSTRUCT (n) MATCH (n) OPTIONAL (n)-[a]->() OPTIONAL (n)-[]->(a) # S4 SortClash 1:64
CONSTRUCT (n)-[p]->(m) MATCH (n)-/@p/->(m) # S4 SortClash 1:16
CONSTRUCT (n)-/e/->(m) MATCH (n)-[e]->(m) # S4 SortClash 1:16
CONSTRUCT (n) MATCH (n) WHERE (n.a = 1) = 2 # S4 SortClash 1:43
CONSTRUCT (n) MATCH (n)-/p<_>/->(m) WHERE p = p # S4 SortClash 1:47
CONSTRUCT (n) MATCH (n)-[e]->(m) WHERE n = e # S4 SortClash 1:44
CONSTRUCT (n) MATCH (n)-[e]->(m) WHERE n = 1 # S4 SortClash 1:44
CONSTRUCT (n) MATCH (n) WHERE ((n.a)) # S4 SortClash 1:33
CONSTRUCT (n) MATCH (n) WHERE (n.a) + 1 # S4 SortClash 1:31
CONSTRUCT (n) MATCH (n) WHERE (n.a).b = 1 # S4 SortClash 1:32
CONSTRUCT (x)-[x]->(n) MATCH (n) # S4 SortClash 1:16
CONSTRUCT (n)-[y]->(n), (y) MATCH (n) # S4 SortClash 1:26
CONSTRUCT (n)-/p/->(m) WHEN p:L MATCH (n)-/p<_>/->(m) # S4 SortClash 1:29
CONSTRUCT (x = e) MATCH (n)-[e]->(m) # S4 SortClash 1:16
CONSTRUCT (n) MATCH (n) WHERE COUNT(*) # S4 SortClash 1:31
CONSTRUCT (n {a := EXISTS (CONSTRUCT () MATCH (n))}) MATCH (n) # S4 SortClash 1:20
CONSTRUCT (n {a := COUNT(n.a = 1)}) MATCH (n) # S4 SortClash 1:26
CONSTRUCT (x GROUP p.a) MATCH (n)-/p<_>/->(m) # S4 SortClash 1:20
CONSTRUCT (x GROUP v.a) MATCH (n {a = v}) # S4 SortClash 1:20
CONSTRUCT (n) MATCH (n) WHERE n.a = 1 AND n.b # S4 SortClash 1:43
CONSTRUCT (n) MATCH (n) WHERE NOT n.b # S4 SortClash 1:35
CONSTRUCT (n) MATCH (n) WHERE n < 1 # S4 SortClash 1:31
CONSTRUCT (n) MATCH (n) WHERE 1 IN n # S4 SortClash 1:36
CONSTRUCT (n {a := n}) MATCH (n) # S4 SortClash 1:20
CONSTRUCT (n {a := n.a = 1}) MATCH (n) # S4 SortClash 1:20
CONSTRUCT (n) MATCH (n) WHERE length(n) = 1 # S4 SortClash 1:38
CONSTRUCT (n) MATCH (n)-/p<_>/->(m) WHERE length(p) = 1 AND nodes(p)[n] = n # S4 SortClash 1:70
CONSTRUCT (n) MATCH (n)-/p<_>/->(m) WHERE nodes(p)[0] = edges(p)[0] # S4 SortClash 1:57
CONSTRUCT (n) MATCH (n)-/p<_>/->(m) WHERE p:L # S4 SortClash 1:43
PATH w = (x)-[e]->(y) COST e CONSTRUCT (n) MATCH (n) # S4 SortClash 1:28
CONSTRUCT (e) MATCH (n)-[e]->(m) # S4 SortClash 1:12
CONSTRUCT (n) MATCH (n)-[n]->(m) # S4 SortClash 1:26
CONSTRUCT (n) MATCH (n {a = n}) # S4 SortClash 1:29
CONSTRUCT (n) MATCH (n) WHERE n.a # S4 SortClash 1:31
CONSTRUCT (n) MATCH (n)-/p<_>/->(m), (p) # S5 TwiceBound 1:39
CONSTRUCT (n) MATCH (n {a = v})-/p<_> COST v/->(m) # S5 TwiceBound 1:44
CONSTRUCT (n) MATCH (n)-/p<_> COST v/->(m {a = v}) # S5 TwiceBound 1:48
CONSTRUCT (n) MATCH (n)-/p<_>/->(m) WHERE EXISTS (CONSTRUCT () MATCH (n)-/p<_>/->(m)) # S5 TwiceBound 1:75
CONSTRUCT (n) MATCH (n)-/ALL p<_>/->(m)-/ALL p<_>/->(n) # S5 TwiceBound 1:46
CONSTRUCT (n) MATCH (n) OPTIONAL (n)-/p<_>/->() OPTIONAL (n)-/p<_>/->() # S5 TwiceBound 1:63
CONSTRUCT (n) MATCH (n)-/p<_>/->(m)-/p<_>/->(n) # S5 TwiceBound 1:38
CONSTRUCT (n) MATCH (n) OPTIONAL (n)-[]->(a) OPTIONAL (n)-[]->(a) # S6 SharedOptional 1:64
CONSTRUCT (n)-/@p/->(m) MATCH (n)-/ALL p<_>/->(m) # S7 AllNotProjected 1:17
CONSTRUCT (n) MATCH (n)-/ALL p<_>/->(m) WHERE p = n # S7 AllNotProjected 1:47
CONSTRUCT (n) MATCH (n)-/ALL p<_>/->(m) WHERE n = p # S7 AllNotProjected 1:51
CONSTRUCT (n {a := COUNT(p)}) MATCH (n)-/ALL p<_>/->(m) # S7 AllNotProjected 1:26
CONSTRUCT (x GROUP p) MATCH (n)-/ALL p<_>/->(m) # S7 AllNotProjected 1:20
CONSTRUCT (p) MATCH (n)-/ALL p<_>/->(m) # S7 AllNotProjected 1:12
CONSTRUCT (n) WHEN p:L MATCH (n)-/ALL p<_>/->(m) # S7 AllNotProjected 1:20
CONSTRUCT (n) MATCH (n)-/ALL p<_>/->(m) WHERE length(p) = 1 # S7 AllNotProjected 1:54
CONSTRUCT (n)-[m]->(n) MATCH (n), (m) # S8 LooseEdge 1:15
CONSTRUCT (m)-[p]->(n) MATCH (n)-/@p/->(m) # S8 LooseEdge 1:15
CONSTRUCT (n)<-[e]-(m) MATCH (n)-[e]->(m) # S8 LooseEdge 1:16
CONSTRUCT (n)-[e]-(m) MATCH (n)-[e]->(m) # S8 LooseEdge 1:15
CONSTRUCT (n)-[e]-(m) MATCH (n), (m) # S8 LooseEdge 1:15
CONSTRUCT (n)-[]-(m) MATCH (n), (m) # S8 LooseEdge 1:15
CONSTRUCT ()-[e]->(m) MATCH ()-[e]->(m) # S8 LooseEdge 1:14
CONSTRUCT (n)-[e]->(m) MATCH (n) OPTIONAL (n)-[e]->(k) OPTIONAL (n)-[f]->(m) # S8 LooseEdge 1:15
CONSTRUCT (n)-/p/->(k) MATCH (n)-/p<_>/->(m) # S8 LooseEdge 1:15
CONSTRUCT (n)-[e]->(n) MATCH (n)-[e]->(m) # S8 LooseEdge 1:15
CONSTRUCT (n)-[y]->(n), (n)-[y]->(n) MATCH (n) # S9 TwiceGrouped 1:30
CONSTRUCT (n = m GROUP n) MATCH (n), (m) # S9 TwiceGrouped 1:14
CONSTRUCT (n GROUP m) MATCH (n), (m) # S9 TwiceGrouped 1:14
CONSTRUCT (x = n), (x = n) MATCH (n) # S9 TwiceGrouped 1:23
CONSTRUCT (x GROUP n), (x GROUP n) MATCH (n) # S9 TwiceGrouped 1:27
PATH w = (x), (x)-[e]->(y) CONSTRUCT (n) MATCH (n) # S10 ViewNeedsEdge 1:6
PATH w = (x) CONSTRUCT (n) MATCH (n) # S10 ViewNeedsEdge 1:6
CONSTRUCT (n) MATCH (n)-/1001 SHORTEST p<_>/->(m) # S11 KOutOfRange 1:26
CONSTRUCT (n) MATCH (n)-/0 SHORTEST p<_>/->(m) # S11 KOutOfRange 1:26
CONSTRUCT (n {a := SUM(COUNT(*))}) MATCH (n) # S12 AggregateHere 1:24
CONSTRUCT (n) WHEN COUNT(*) = 1 MATCH (n) # S12 AggregateHere 1:20
CONSTRUCT (n) MATCH (n) WHERE COUNT(*) = 1 # S12 AggregateHere 1:31
CONSTRUCT (n) WHEN EXISTS (CONSTRUCT () MATCH (n)) MATCH (n) # S13 ExistsForm 1:20
CONSTRUCT (n) MATCH (n) WHERE EXISTS (CONSTRUCT (m) MATCH (m)) # S13 ExistsForm 1:31
CONSTRUCT (n) MATCH (n) WHERE EXISTS (CONSTRUCT (), () MATCH (m)) # S13 ExistsForm 1:31
CONSTRUCT (n) MATCH (n) WHERE EXISTS (CONSTRUCT (:A) MATCH (m)) # S13 ExistsForm 1:31
CONSTRUCT (n) MATCH (n) WHERE EXISTS (CONSTRUCT () WHEN 1 = 1 MATCH (m)) # S13 ExistsForm 1:31
CONSTRUCT (n) MATCH (n) WHERE EXISTS (CONSTRUCT () MATCH (m) OPTIONAL (n)) # S13 ExistsForm 1:31
CONSTRUCT (n) MATCH (n) WHERE EXISTS (CONSTRUCT () MATCH (m) UNION g) # S13 ExistsForm 1:31
PATH w = (x)-[e]->(y) WHERE EXISTS (CONSTRUCT () MATCH (x)) CONSTRUCT (n) MATCH (n) # S13 ExistsForm 1:29
CONSTRUCT (n) MATCH (n) WHERE EXISTS (g) # S13 ExistsForm 1:31
PATH w = (x)-[]->(y) (PATH w = (x)-[]->(y) CONSTRUCT (n) MATCH (n)-/<~w>/->(m)) # S14 NameTaken 1:28
GRAPH VIEW h AS (g); GRAPH VIEW h AS (g) # S14 NameTaken 1:33
GRAPH g2 AS (g) GRAPH g AS (g2) g # S14 NameTaken 1:23
GRAPH VIEW g AS (g) # S14 NameTaken 1:12
CONSTRUCT (n) MATCH (n) OPTIONAL (n)-[e]->(m) WHERE m.a = 1 # no breach
CONSTRUCT (n) MATCH (n), (k) OPTIONAL (n)-[e]->(m) WHERE EXISTS (CONSTRUCT () MATCH (m)-[k]->(n)) # no breach
CONSTRUCT (n) MATCH (n) WHERE EXISTS (CONSTRUCT () MATCH (n)-[k]->(z) WHERE n.a = z.a AND EXISTS (CONSTRUCT () MATCH (q) WHERE k.a = n.b)) # no breach
CONSTRUCT (n) MATCH (n) WHERE EXISTS (CONSTRUCT () MATCH (n)-[m]->()) OPTIONAL (n)-[e]->(m) # no breach
CONSTRUCT (n) MATCH (n {a = v})-/p<_> COST c/->(m {b = v}) # no breach
CONSTRUCT (n) MATCH (n), (m) WHERE EXISTS (CONSTRUCT () MATCH (n)-/p<_>/->(m)) AND EXISTS (CONSTRUCT () MATCH (m)-/p<_>/->(n)) # no breach
CONSTRUCT (n) MATCH (n) OPTIONAL (n)-[]->(a)-[]->(a) OPTIONAL (n)-[]->(b) # no breach
CONSTRUCT (m)<-[e]-(n) MATCH (n)-[e]->(m) # no breach
CONSTRUCT (m)-[e]-(n) MATCH (n)-[e]-(m) # no breach
CONSTRUCT (n)-[e]->(m) MATCH (n), (m) # no breach
CONSTRUCT (n)-/p/->(m) MATCH (n)-/p<_>/->(m) # no breach
CONSTRUCT (n)-/@p/->(m) MATCH (n)-/p<_>/->(m) # no breach
CONSTRUCT (n)-/p/->(m) MATCH (n)-/ALL p<_>/->(m) # no breach
CONSTRUCT (n) MATCH (n)-/@p/->(m) WHERE p = p AND n = m # no breach
CONSTRUCT (n) SET m.a := 1, (m) MATCH (n), (m) # no breach
CONSTRUCT (n)-/@p/->(m) SET p:L MATCH (n)-/p<_>/->(m) # no breach
CONSTRUCT (n) REMOVE n.a REMOVE n:L MATCH (n) # no breach
CONSTRUCT (x) WHEN x.b = n.c MATCH (n) # no breach
CONSTRUCT (n)-/@p/->(m) WHEN p:L MATCH (n)-/p<_>/->(m) # no breach
CONSTRUCT (x = n GROUP n), (x) MATCH (n) # no breach
CONSTRUCT (n)-[y = e]->(m) MATCH (n)-[e]->(m) # no breach
CONSTRUCT (n) SET n.a := COUNT(*) MATCH (n) # no breach
CONSTRUCT (n) MATCH (n) WHERE EXISTS ((CONSTRUCT () MATCH (m))) # no breach
CONSTRUCT (n) MATCH (n) OPTIONAL (n)-[]->(m) WHERE EXISTS (CONSTRUCT () MATCH (m)) # no breach
GRAPH VIEW v AS (GRAPH v AS (g) v) # no breach
PATH g = (x)-[g]->(y) CONSTRUCT (g) MATCH (g)-/<~g>/->(m) ON g # no breach
CONSTRUCT (n {a := COUNT(p), b := COUNT(n), c := COUNT(n.a)}) MATCH (n)-/p<_>/->(m) # no breach
CONSTRUCT (x GROUP n, n.a, v) MATCH (n {a = v})-/p<_>/->(m) # no breach
CONSTRUCT (x GROUP p) MATCH (n)-/p<_>/->(m) # no breach
CONSTRUCT (n) MATCH (n) WHERE n.a SUBSET n.b AND n:L AND 1 + n.a <= 2 # no breach
CONSTRUCT (n) MATCH (n)-/@p:L/->(m) WHERE length(p) = 1 AND nodes(p)[0] = n AND edges(p)[0]:L AND nodes(p)[0].a = 1 # no breach
PATH w = (x)-[e]->(y) WHERE e.a = 1 COST e.b + 1 CONSTRUCT (n) MATCH (n)-/<~w>/->(m) # no breach
PATH w = (x)-[e]->(y), (x) CONSTRUCT (n) MATCH (n) # no breach
CONSTRUCT (n) MATCH (n)-/1000 SHORTEST p<_>/->(m) # no breach";

// What a query file's comment says that breaks no sort rule.
const NO_BREACH: &str = "no breach";

// Whether a query file is told what its comment says. One that breaks no sort rule is answered.
fn holds(alloc: Global, query: &str) -> Result<bool, Fail> {
    let (_, told) = query.split_once(" # ").ok_or("a comment")?;
    let mut files = String::from_str(alloc, "a: «labels»\nq: ")?;
    files.push_str(query)?;
    let seen = seen(alloc, "run q g=a", &files, &NEVER)?;
    if told == NO_BREACH {
        return Ok(seen.status == 0);
    }
    let mut due = String::from_str(alloc, "4 gcore: ")?;
    due.push_str(told)?;
    is_due(alloc, &seen, &due, &[])
}

#[test]
fn sort_rules_are_read_as_they_are_meant(rt: HostRuntime) -> Result<(), Fail> {
    for query in QUERIES.lines() {
        let holds = holds(rt.alloc(), query)?;
        assert!(rt; holds, "{query}");
    }
    Ok(())
}
