// Query files as they are printed: each text of the first table is laid out as one that is printed, so reading and
// printing it gives it again; of the second, each text is printed as the one behind it.
use gc_base::Bytes;
use gc_lex::lex;
use gc_parse::parse;
use gc_print_query::print_query;
use std::alloc::Global;
use std::test::Fail;

const LAID_OUT: &str = r##"
g;

CONSTRUCT (n)
MATCH (n);

GRAPH VIEW v AS (
  g
);
v;

PATH w = (x)-[e:knows]->(y),
  (y {k = v})
  WHERE v > 1
  COST e.msgs + 1
GRAPH h AS (
  CONSTRUCT (n)
  MATCH (n)
)
CONSTRUCT h
MATCH (n)-/p<~w*|:a->/->(m) ON g;

g
UNION h
INTERSECT (
  g
  MINUS h
);

CONSTRUCT (x=n GROUP e, n.k:A:B {a := 1, b := COLLECT(e)})<-[y:likes]-(m)-/p/->(n)-/@q:way {c := -n.a}/->(m),
  g,
  (n)-[e]-(m)
  SET n.a := SUM(n.b) % 2
  SET m:New
  REMOVE n.b
  REMOVE n:Old
  WHEN x.a <> 1 OR NOT (n.a = 1 AND n:A)
MATCH (n:A|B:C {k = v, l = w})-[e:knows {m = u}]->(m)<-[:a]-()-[f]-(n),
  (n)-/3 SHORTEST p<(:a|!:b) _-*> COST c/->(m)-/ALL r<:a>/->(n)-/@q:way|road/->(m)-/<:a :b>/->(n) ON h
WHERE (n.a + 1) * 2 - 3 >= length(p) AND nodes(p)[0].k = "a \"quoted\" text\n" AND edges(p)[c] = e AND v IN n.b
OPTIONAL (n)-[:z]->(o)
WHERE EXISTS (
  CONSTRUCT ()
  MATCH (o)
  WHERE TRUE SUBSET o.k AND NOT EXISTS (
    CONSTRUCT ()
    MATCH (n)
  )
)
OPTIONAL (m);

GRAPH VIEW social1 AS (
  CONSTRUCT social,
    (n)-[e]->(m)
    SET e.nr_messages := COUNT(msg1)
  MATCH (n:Person)-[e:knows]->(m:Person)
  OPTIONAL (n)<-[:has_creator]-(msg1:Post|Comment),
    (msg1)-[:reply_of]-(msg2:Post|Comment),
    (msg2)-[:has_creator]->(m)
);
GRAPH VIEW social2 AS (
  PATH wKnows = (x)-[e:knows]->(y)
    WHERE NOT "Acme" IN y.employer
    COST 9 / (1 + e.nr_messages)
  CONSTRUCT social1,
    (n)-/@p:toWagner/->(m)
  MATCH (n:Person)-/p<~wKnows*>/->(m:Person) ON social1,
    (m)-[:hasInterest]->(t:Tag) ON social1
  WHERE n.firstName = "John" AND t.name = "Wagner"
);
CONSTRUCT (n)-[e:wagnerFriend {score := COUNT(*)}]->(m)
  WHEN e.score > 0
MATCH (n:Person)-/@p:toWagner/->() ON social2,
  (m:Person) ON social2
WHERE m = nodes(p)[1];
"##;

const OTHERWISE: &str = r##"
((g)) ; # the graph itself
=>
g;

CONSTRUCT(n)MATCH(n)WHERE((n.a)=((1)))AND(n:A OR((n:B)));h
=>
CONSTRUCT (n)
MATCH (n)
WHERE n.a = 1 AND (n:A OR n:B);
h;

CONSTRUCT (n {x:=(1+2)-(3*4), y:= 1-(2-3), z:='it is'}) MATCH (n)-/<((:a)(:b))|((:c)*)*>/->(m)
=>
CONSTRUCT (n {x := (1 + 2) - 3 * 4, y := 1 - (2 - 3), z := "it is"})
MATCH (n)-/<:a :b|(:c*)*>/->(m);

CONSTRUCT (n) MATCH (n) WHERE n.a = 1 = 2
=>
nothing
"##;

// A query file as it is printed; nothing where it is none.
fn printed(alloc: Global, text: &str) -> Result<Option<Bytes>, Fail> {
    let Ok(tokens) = lex(alloc, text.as_bytes()) else {
        return Ok(None);
    };
    match parse(alloc, &tokens) {
        Ok(file) => Ok(Some(print_query(alloc, &file)?)),
        Err(_) => Ok(None),
    }
}

// Whether a query file is printed as a text and a line feed.
fn is_printed_as(alloc: Global, text: &str, due: &str) -> Result<bool, Fail> {
    let Some(printed) = printed(alloc, text)? else {
        return Ok(due == "nothing");
    };
    Ok(printed.as_slice().strip_suffix(b"\n") == Some(due.as_bytes()))
}

#[test]
fn query_files_are_printed_as_they_are_laid_out(rt: HostRuntime) -> Result<(), Fail> {
    for text in LAID_OUT.trim().split("\n\n") {
        assert!(rt; is_printed_as(rt.alloc(), text, text)?);
    }
    for case in OTHERWISE.trim().split("\n\n") {
        let (text, due) = case.split_once("\n=>\n").ok_or("a case is TEXT => TEXT")?;
        assert!(rt; is_printed_as(rt.alloc(), text, due)?);
    }
    Ok(())
}
