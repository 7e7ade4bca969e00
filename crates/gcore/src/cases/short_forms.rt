// The short forms of a case: `«64×(»` is a text so many times, `«byte 255»` a single byte, `«»` nothing, and
// `«N1»` and its kin stand for the texts below.
use std::alloc::Global;
use std::test::Fail;

/// Two nodes, by label.
const LABELS: &str =
    r#"{"gcore":1,"nodes":[{"id":2,"labels":["City"]},{"id":1,"labels":["Person"]}]}"#;

/// Five persons who know one another, with how many messages they sent.
const SOCIAL: &str = r#"{"gcore":1,"nodes":[
{"id":1,"labels":["Person"],"properties":{"name":"Ann"}},
{"id":2,"labels":["Person"],"properties":{"name":"Bob"}},
{"id":3,"labels":["Person"],"properties":{"name":"Cem"}},
{"id":4,"labels":["Person"],"properties":{"name":"Dea","employer":["MIT","CWI"]}},
{"id":5,"labels":["Person"],"properties":{"name":"Eva"}}],
"edges":[
{"id":11,"from":1,"to":2,"labels":["knows"],"properties":{"msgs":1}},
{"id":12,"from":2,"to":3,"labels":["knows"],"properties":{"msgs":9}},
{"id":13,"from":1,"to":4,"labels":["knows"],"properties":{"msgs":4}},
{"id":14,"from":4,"to":3,"labels":["knows"],"properties":{"msgs":0}},
{"id":15,"from":3,"to":1,"labels":["knows"],"properties":{"msgs":0}},
{"id":16,"from":5,"to":5,"labels":["knows"],"properties":{"msgs":0}},
{"id":17,"from":1,"to":2,"labels":["knows"],"properties":{"msgs":3}}]}
"#;

/// Three persons, what one is interested in, and a post with comments.
const WAGNER: &str = r#"{"gcore":1,"nodes":[
{"id":1,"labels":["Person"],"properties":{"firstName":"John"}},
{"id":2,"labels":["Person"],"properties":{"firstName":"Peter"}},
{"id":3,"labels":["Person"],"properties":{"firstName":"Celine"}},
{"id":4,"labels":["Tag"],"properties":{"name":"Wagner"}},
{"id":5,"labels":["Post"]},{"id":6,"labels":["Comment"]},{"id":7,"labels":["Comment"]}],
"edges":[
{"id":11,"from":1,"to":2,"labels":["knows"]},
{"id":12,"from":1,"to":3,"labels":["knows"]},
{"id":13,"from":2,"to":3,"labels":["knows"]},
{"id":14,"from":3,"to":4,"labels":["hasInterest"]},
{"id":15,"from":5,"to":1,"labels":["has_creator"]},
{"id":16,"from":6,"to":2,"labels":["has_creator"]},
{"id":17,"from":6,"to":5,"labels":["reply_of"]},
{"id":18,"from":7,"to":3,"labels":["has_creator"]},
{"id":19,"from":7,"to":6,"labels":["reply_of"]}]}
"#;

/// Two persons, an edge and a loop between them, and a stored path along both.
const PATHS: &str = r#"{"gcore":1,"nodes":[
{"id":1,"labels":["Person"],"properties":{"name":"Ann"}},
{"id":4,"labels":["Boss","Person"],"properties":{"employer":["MIT","CWI"],"name":"Dea"}}],
"edges":[
{"id":11,"from":4,"to":1,"labels":["knows"],"properties":{"msgs":3}},
{"id":16,"from":4,"to":4,"labels":["knows","likes"],"properties":{"msgs":0}}],
"paths":[
{"id":20,"walk":[4,16,4,11,1],"labels":["way"],"properties":{"cost":7}}]}
"#;

/// The canonical texts of elements of the three.
const ELEMENTS: &str = r#"N1={"id":1,"labels":["Person"],"properties":{"name":["Ann"]}}
N2={"id":2,"labels":["Person"],"properties":{"name":["Bob"]}}
N3={"id":3,"labels":["Person"],"properties":{"name":["Cem"]}}
N4={"id":4,"labels":["Person"],"properties":{"employer":["CWI","MIT"],"name":["Dea"]}}
N5={"id":5,"labels":["Person"],"properties":{"name":["Eva"]}}
E11={"from":1,"id":11,"labels":["knows"],"properties":{"msgs":[1]},"to":2}
E12={"from":2,"id":12,"labels":["knows"],"properties":{"msgs":[9]},"to":3}
E13={"from":1,"id":13,"labels":["knows"],"properties":{"msgs":[4]},"to":4}
E14={"from":4,"id":14,"labels":["knows"],"properties":{"msgs":[0]},"to":3}
E15={"from":3,"id":15,"labels":["knows"],"properties":{"msgs":[0]},"to":1}
E16={"from":5,"id":16,"labels":["knows"],"properties":{"msgs":[0]},"to":5}
E17={"from":1,"id":17,"labels":["knows"],"properties":{"msgs":[3]},"to":2}
P4={"id":4,"labels":["Boss","Person"],"properties":{"employer":["CWI","MIT"],"name":["Dea"]}}
John={"id":1,"labels":["Person"],"properties":{"firstName":["John"]}}
Peter={"id":2,"labels":["Person"],"properties":{"firstName":["Peter"]}}
Celine={"id":3,"labels":["Person"],"properties":{"firstName":["Celine"]}}
Arc={"edges":[{"from":1,"id":3,"labels":["A"],"properties":{},"to":2}],"gcore":1,"nodes":[{"id":1,"labels":[],"properties":{}},{"id":2,"labels":[],"properties":{}}],"paths":[]}"#;

/// Whom John has to ask on his way to someone who is interested in Wagner.
const FRIENDS: &str = r#"GRAPH VIEW social1 AS (
  CONSTRUCT social, (n)-[e]->(m) SET e.nr_messages := COUNT(msg1)
  MATCH (n:Person)-[e:knows]->(m:Person)
  OPTIONAL (n)<-[:has_creator]-(msg1:Post|Comment),
    (msg1)-[:reply_of]-(msg2:Post|Comment), (msg2)-[:has_creator]->(m));
GRAPH VIEW social2 AS (
  PATH wKnows = (x)-[e:knows]->(y) WHERE NOT "Acme" IN y.employer
    COST 9/(1+e.nr_messages)
  CONSTRUCT social1, (n)-/@p:toWagner/->(m)
  MATCH (n:Person)-/p<~wKnows*>/->(m:Person) ON social1,
    (m)-[:hasInterest]->(t:Tag) ON social1
  WHERE n.firstName = "John" AND t.name = "Wagner");
CONSTRUCT (n)-[e:wagnerFriend {score:=COUNT(*)}]->(m) WHEN e.score > 0
MATCH (n:Person)-/@p:toWagner/->() ON social2, (m:Person) ON social2
WHERE m = nodes(p)[1]
"#;

/// An element by its short name.
fn element(name: &str) -> Result<&'static str, Fail> {
    for line in ELEMENTS.lines() {
        if let Some((short, text)) = line.split_once('=') {
            if short == name {
                return Ok(text);
            }
        }
    }
    Err("no such short form")?
}

fn named(name: &str) -> Result<&'static str, Fail> {
    match name {
        "" => Ok(""),
        "labels" => Ok(LABELS),
        "S" => Ok(SOCIAL),
        "W" => Ok(WAGNER),
        "P" => Ok(PATHS),
        "friends" => Ok(FRIENDS),
        "line" => Ok("\n"),
        "return" => Ok("\r"),
        "tab" => Ok("\t"),
        _ => element(name),
    }
}

// How often a text stands in a block, by which texts of many millions of bytes are put together.
const BLOCK: u32 = 1_000;

fn push_times(whole: &mut Vec<u8>, count: &str, text: &str) -> Result<(), Fail> {
    let count = count.parse::<u32>().ok().ok_or("a number of times")?;
    let mut block = Vec::new(*whole.allocator());
    push_copies(&mut block, BLOCK, text.as_bytes())?;
    push_copies(whole, count / BLOCK, &block)?;
    push_copies(whole, count % BLOCK, text.as_bytes())
}

fn push_copies(whole: &mut Vec<u8>, count: u32, text: &[u8]) -> Result<(), Fail> {
    for _ in 0..count {
        whole.extend_from_slice(text)?;
    }
    Ok(())
}

fn push_short(whole: &mut Vec<u8>, short: &str) -> Result<(), Fail> {
    if let Some((count, text)) = short.split_once('×') {
        return push_times(whole, count, text);
    }
    if let Some(number) = short.strip_prefix("byte ") {
        whole.push(number.parse::<u8>().ok().ok_or("a byte")?)?;
        return Ok(());
    }
    whole.extend_from_slice(named(short)?.as_bytes())?;
    Ok(())
}

/// A text with its short forms written out.
pub(crate) fn written_out(alloc: Global, text: &str) -> Result<Vec<u8>, Fail> {
    let mut whole = Vec::new(alloc);
    for part in text.split('«') {
        let (short, rest) = part.split_once('»').unwrap_or(("", part));
        push_short(&mut whole, short)?;
        whole.extend_from_slice(rest.as_bytes())?;
    }
    Ok(whole)
}
