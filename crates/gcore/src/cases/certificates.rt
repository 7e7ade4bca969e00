// Certificates that are checked: those that are accepted, those that are refused or break a rule, and one that is
// changed part by part.
use super::short_forms::written_out;
use super::{NEVER, Observed, call, first_failing, words_of};
use gc_base::{Bytes, Str};
use gc_io::{FileEntry, FileList};
use std::alloc::Global;
use std::marker::Brand;
use std::sync::ledger::Blank;
use std::test::Fail;

const CASES: &str = r##"
one-edge-certificate-accepted
$ check c
c: {"gcore_cert":1,"searches":[{"expression":":knows","graph":{"edges":[{"from":1,"id":11,"labels":["knows"],"properties":{},"to":2}],"gcore":1,"nodes":[{"id":1,"labels":[],"properties":{}},{"id":2,"labels":[],"properties":{}}],"paths":[]},"potentials":[[1,0,"0"],[2,1,"1"]],"segments":[],"start":1,"walks":[{"cost":"1","run":[{"edge":11,"to":1}],"walk":[1,11,2]}]}]}«line»
= 0 accepted 1

potential-too-great-k4
$ check c
c: {"gcore_cert":1,"searches":[{"expression":":knows","graph":{"edges":[{"from":1,"id":11,"labels":["knows"],"properties":{},"to":2}],"gcore":1,"nodes":[{"id":1,"labels":[],"properties":{}},{"id":2,"labels":[],"properties":{}}],"paths":[]},"potentials":[[1,0,"0"],[2,1,"2"]],"segments":[],"start":1,"walks":[{"cost":"1","run":[{"edge":11,"to":1}],"walk":[1,11,2]}]}]}«line»
= 9 gcore: rejected search 0 K4

potential-too-small-k6
$ check c
c: {"gcore_cert":1,"searches":[{"expression":":knows","graph":{"edges":[{"from":1,"id":11,"labels":["knows"],"properties":{},"to":2}],"gcore":1,"nodes":[{"id":1,"labels":[],"properties":{}},{"id":2,"labels":[],"properties":{}}],"paths":[]},"potentials":[[1,0,"0"],[2,1,"0"]],"segments":[],"start":1,"walks":[{"cost":"1","run":[{"edge":11,"to":1}],"walk":[1,11,2]}]}]}«line»
= 9 gcore: rejected search 0 K6

missing-potential-k3
$ check c
c: {"gcore_cert":1,"searches":[{"expression":":knows","graph":{"edges":[{"from":1,"id":11,"labels":["knows"],"properties":{},"to":2}],"gcore":1,"nodes":[{"id":1,"labels":[],"properties":{}},{"id":2,"labels":[],"properties":{}}],"paths":[]},"potentials":[[1,0,"0"]],"segments":[],"start":1,"walks":[{"cost":"1","run":[{"edge":11,"to":1}],"walk":[1,11,2]}]}]}«line»
= 9 gcore: rejected search 0 K3

certificate-without-its-last-byte-c1
$ check c
c: {"gcore_cert":1,"searches":[{"expression":":knows","graph":{"edges":[{"from":1,"id":11,"labels":["knows"],"properties":{},"to":2}],"gcore":1,"nodes":[{"id":1,"labels":[],"properties":{}},{"id":2,"labels":[],"properties":{}}],"paths":[]},"potentials":[[1,0,"0"],[2,1,"1"]],"segments":[],"start":1,"walks":[{"cost":"1","run":[{"edge":11,"to":1}],"walk":[1,11,2]}]}]
= 9 gcore: C1 NotJson

certificate-without-its-last-bracket-c1
$ check c
c: {"gcore_cert":1,"searches":[{"expression":":knows","graph":{"edges":[{"from":1,"id":11,"labels":["knows"],"properties":{},"to":2}],"gcore":1,"nodes":[{"id":1,"labels":[],"properties":{}},{"id":2,"labels":[],"properties":{}}],"paths":[]},"potentials":[[1,0,"0"],[2,1,"1"]],"segments":[],"start":1,"walks":[{"cost":"1","run":[{"edge":11,"to":1}],"walk":[1,11,2]}]}]«line»
= 9 gcore: C1 NotJson

empty-certificate-c1
$ check c
c: «»
= 9 gcore: C1 NotJson

first-byte-of-a-certificate-c1
$ check c
c: {
= 9 gcore: C1 NotJson

first-half-of-a-certificate-c1
$ check c
c: {"gcore_cert":1,"searches":[{"expression":":knows","graph":{"edges":[{"from":1,"id":11,"labels":["knows"],"properties":{},"to":2}],"gcore":1,"nodes":[{"id":1,"labels":[],"properties"
= 9 gcore: C1 NotJson

certificate-without-searches-c2
$ check c
c: {"gcore_cert":1}
= 9 gcore: C2 WrongShape

certificate-of-another-version-c2
$ check c
c: {"gcore_cert":2,"searches":[{"expression":":knows","graph":{"edges":[{"from":1,"id":11,"labels":["knows"],"properties":{},"to":2}],"gcore":1,"nodes":[{"id":1,"labels":[],"properties":{}},{"id":2,"labels":[],"properties":{}}],"paths":[]},"potentials":[[1,0,"0"],[2,1,"1"]],"segments":[],"start":1,"walks":[{"cost":"1","run":[{"edge":11,"to":1}],"walk":[1,11,2]}]}]}«line»
= 9 gcore: C2 WrongShape

graph-of-version-three-c3
$ check c
c: {"gcore_cert":1,"searches":[{"expression":":knows","graph":{"edges":[{"from":1,"id":11,"labels":["knows"],"properties":{},"to":2}],"gcore":3,"nodes":[{"id":1,"labels":[],"properties":{}},{"id":2,"labels":[],"properties":{}}],"paths":[]},"potentials":[[1,0,"0"],[2,1,"1"]],"segments":[],"start":1,"walks":[{"cost":"1","run":[{"edge":11,"to":1}],"walk":[1,11,2]}]}]}«line»
= 9 gcore: C3 BadGraph search 0

expression-of-one-colon-c4
$ check c
c: {"gcore_cert":1,"searches":[{"expression":":","graph":{"edges":[{"from":1,"id":11,"labels":["knows"],"properties":{},"to":2}],"gcore":1,"nodes":[{"id":1,"labels":[],"properties":{}},{"id":2,"labels":[],"properties":{}}],"paths":[]},"potentials":[[1,0,"0"],[2,1,"1"]],"segments":[],"start":1,"walks":[{"cost":"1","run":[{"edge":11,"to":1}],"walk":[1,11,2]}]}]}«line»
= 9 gcore: C4 BadExpression search 0

segment-without-edge-c5
$ check c
c: {"gcore_cert":1,"searches":[{"expression":":knows","graph":{"edges":[{"from":1,"id":11,"labels":["knows"],"properties":{},"to":2}],"gcore":1,"nodes":[{"id":1,"labels":[],"properties":{}},{"id":2,"labels":[],"properties":{}}],"paths":[]},"potentials":[[1,0,"0"],[2,1,"1"]],"segments":[{"cost":"1","view":"w","walk":[1]}],"start":1,"walks":[{"cost":"1","run":[{"edge":11,"to":1}],"walk":[1,11,2]}]}]}«line»
= 9 gcore: C5 BadSegment search 0

cost-with-leading-zero-c6
$ check c
c: {"gcore_cert":1,"searches":[{"expression":":knows","graph":{"edges":[{"from":1,"id":11,"labels":["knows"],"properties":{},"to":2}],"gcore":1,"nodes":[{"id":1,"labels":[],"properties":{}},{"id":2,"labels":[],"properties":{}}],"paths":[]},"potentials":[[1,0,"0"],[2,1,"01"]],"segments":[],"start":1,"walks":[{"cost":"1","run":[{"edge":11,"to":1}],"walk":[1,11,2]}]}]}«line»
= 9 gcore: C6 BadNumber search 0

potentials-exchanged-k1
$ check c
c: {"gcore_cert":1,"searches":[{"expression":":knows","graph":{"edges":[{"from":1,"id":11,"labels":["knows"],"properties":{},"to":2}],"gcore":1,"nodes":[{"id":1,"labels":[],"properties":{}},{"id":2,"labels":[],"properties":{}}],"paths":[]},"potentials":[[2,1,"1"],[1,0,"0"]],"segments":[],"start":1,"walks":[{"cost":"1","run":[{"edge":11,"to":1}],"walk":[1,11,2]}]}]}«line»
= 9 gcore: rejected search 0 K1

start-without-potential-k2
$ check c
c: {"gcore_cert":1,"searches":[{"expression":":knows","graph":{"edges":[{"from":1,"id":11,"labels":["knows"],"properties":{},"to":2}],"gcore":1,"nodes":[{"id":1,"labels":[],"properties":{}},{"id":2,"labels":[],"properties":{}}],"paths":[]},"potentials":[[1,0,"0"],[2,1,"1"]],"segments":[],"start":2,"walks":[{"cost":"1","run":[{"edge":11,"to":1}],"walk":[1,11,2]}]}]}«line»
= 9 gcore: rejected search 0 K2

run-to-another-state-k5
$ check c
c: {"gcore_cert":1,"searches":[{"expression":":knows","graph":{"edges":[{"from":1,"id":11,"labels":["knows"],"properties":{},"to":2}],"gcore":1,"nodes":[{"id":1,"labels":[],"properties":{}},{"id":2,"labels":[],"properties":{}}],"paths":[]},"potentials":[[1,0,"0"],[2,1,"1"]],"segments":[],"start":1,"walks":[{"cost":"1","run":[{"edge":11,"to":0}],"walk":[1,11,2]}]}]}«line»
= 9 gcore: rejected search 0 K5

certificate-of-no-search-accepted
$ check c
c: {"gcore_cert":1,"searches":[]}«line»
= 0 accepted 0

certificate-of-two-searches-accepted
$ check c
c: {"gcore_cert":1,"searches":[{"expression":":knows","graph":{"edges":[{"from":1,"id":11,"labels":["knows"],"properties":{},"to":2}],"gcore":1,"nodes":[{"id":1,"labels":[],"properties":{}},{"id":2,"labels":[],"properties":{}}],"paths":[]},"potentials":[[1,0,"0"],[2,1,"1"]],"segments":[],"start":1,"walks":[{"cost":"1","run":[{"edge":11,"to":1}],"walk":[1,11,2]}]},{"expression":":knows","graph":{"edges":[{"from":1,"id":11,"labels":["knows"],"properties":{},"to":2}],"gcore":1,"nodes":[{"id":1,"labels":[],"properties":{}},{"id":2,"labels":[],"properties":{}}],"paths":[]},"potentials":[[1,0,"0"],[2,1,"1"]],"segments":[],"start":1,"walks":[{"cost":"1","run":[{"edge":11,"to":1}],"walk":[1,11,2]}]}]}«line»
= 0 accepted 2

second-search-rejected-k4
$ check c
c: {"gcore_cert":1,"searches":[{"expression":":knows","graph":{"edges":[{"from":1,"id":11,"labels":["knows"],"properties":{},"to":2}],"gcore":1,"nodes":[{"id":1,"labels":[],"properties":{}},{"id":2,"labels":[],"properties":{}}],"paths":[]},"potentials":[[1,0,"0"],[2,1,"1"]],"segments":[],"start":1,"walks":[{"cost":"1","run":[{"edge":11,"to":1}],"walk":[1,11,2]}]},{"expression":":knows","graph":{"edges":[{"from":1,"id":11,"labels":["knows"],"properties":{},"to":2}],"gcore":1,"nodes":[{"id":1,"labels":[],"properties":{}},{"id":2,"labels":[],"properties":{}}],"paths":[]},"potentials":[[1,0,"0"],[2,1,"2"]],"segments":[],"start":1,"walks":[{"cost":"1","run":[{"edge":11,"to":1}],"walk":[1,11,2]}]}]}«line»
= 9 gcore: rejected search 1 K4

reading-comes-before-rules-c6
$ check c
c: {"gcore_cert":1,"searches":[{"expression":":knows","graph":{"edges":[{"from":1,"id":11,"labels":["knows"],"properties":{},"to":2}],"gcore":1,"nodes":[{"id":1,"labels":[],"properties":{}},{"id":2,"labels":[],"properties":{}}],"paths":[]},"potentials":[[1,0,"0"],[2,1,"2"]],"segments":[],"start":1,"walks":[{"cost":"1","run":[{"edge":11,"to":1}],"walk":[1,11,2]}]},{"expression":":knows","graph":{"edges":[{"from":1,"id":11,"labels":["knows"],"properties":{},"to":2}],"gcore":1,"nodes":[{"id":1,"labels":[],"properties":{}},{"id":2,"labels":[],"properties":{}}],"paths":[]},"potentials":[[1,0,"0"],[2,1,"01"]],"segments":[],"start":1,"walks":[{"cost":"1","run":[{"edge":11,"to":1}],"walk":[1,11,2]}]}]}«line»
= 9 gcore: C6 BadNumber search 1

array-as-certificate-c2
$ check c
c: []
= 9 gcore: C2 WrongShape

missing-certificate-unread
$ check c
= 6 gcore: cannot read c
"##;

/// A certificate of one search that has each part which a certificate may have.
const WHOLE: &str =
    r##"{"gcore_cert":1,"searches":[{"expression":"~w|:A","graph":«Arc»,"potentials":[[1,0,"0"],[1,1,"0"],[1,3,"0"],[2,2,"1"],[2,4,"1"],[2,5,"1"]],"segments":[{"cost":"1","view":"w","walk":[1,3,2]}],"start":1,"walks":[{"cost":"1","run":[{"to":3},{"edge":3,"to":4},{"to":5}],"walk":[1,3,2]},{"cost":"1","run":[{"to":1},{"segment":0,"to":2},{"to":5}],"walk":[1,3,2]}]}]}"##;

// What stands in it, what in its place, and the line that is due then.
const CHANGES: &str = r##"
"gcore_cert":1 => "gcore_cert":2 => C2 WrongShape
"gcore_cert":1, =>  => C2 WrongShape
"gcore_cert":1 => "gcore_cert":1,"more":1 => C2 WrongShape
"searches": => "search": => C2 WrongShape
"expression": => "expressions": => C2 WrongShape
"~w|:A" => 7 => C4 BadExpression search 0
"~w|:A" => "~w|" => C4 BadExpression search 0
"~w|:A" => "~w|:B" => rejected search 0 K5
"gcore":1 => "gcore":3 => C3 BadGraph search 0
"from":1 => "from":9 => C3 BadGraph search 0
"to":2}],"gcore" => "to":1}],"gcore" => C5 BadSegment search 0
"labels":["A"] => "labels":["B"] => rejected search 0 K5
{"id":2, => {"id":1, => C3 BadGraph search 0
[1,0,"0"] => [1,0,"1"] => rejected search 0 K2
[1,1,"0"] => [1,1,"2"] => rejected search 0 K4
[1,1,"0"], =>  => rejected search 0 K3
[2,5,"1"] => [2,5,"0"] => rejected search 0 K6
[2,5,"1"] => [2,6,"1"] => rejected search 0 K1
[2,5,"1"] => [7,5,"1"] => rejected search 0 K1
[2,5,"1"] => [2,5,1] => C6 BadNumber search 0
[2,5,"1"] => [2,5] => C2 WrongShape
[2,5,"1"] => [2,-5,"1"] => C6 BadNumber search 0
[2,5,"1"] => [2,5,"170141183460469231731687303715884105728"] => C6 BadNumber search 0
[2,5,"1"] => [9007199254740992,5,"1"] => C6 BadNumber search 0
"segments":[{"cost":"1" => "segments":[{"cost":"0" => C5 BadSegment search 0
"segments":[{"cost":"1" => "segments":[{"cost":"01" => C6 BadNumber search 0
"segments":[{"cost":"1" => "segments":[{"cost":"2" => rejected search 0 K6
"view":"w" => "view":"v" => rejected search 0 K5
"view":"w" => "view":"ALL" => C5 BadSegment search 0
"view":"w" => "view":3 => C5 BadSegment search 0
"view":"w","walk":[1,3,2] => "view":"w","walk":[2,3,1] => rejected search 0 K5
"view":"w","walk":[1,3,2] => "view":"w","walk":[1,3,9] => C5 BadSegment search 0
"view":"w","walk":[1,3,2] => "view":"w","walk":7 => C2 WrongShape
"start":1 => "start":2 => rejected search 0 K2
"start":1 => "start":9 => rejected search 0 K2
"start":1 => "start":"1" => C6 BadNumber search 0
"start":1, =>  => C2 WrongShape
"walks":[{"cost":"1" => "walks":[{"cost":"2" => rejected search 0 K6
{"to":3} => {"to":1} => rejected search 0 K5
{"edge":3,"to":4} => {"edge":9,"to":4} => rejected search 0 K5
{"edge":3,"to":4} => {"edge":3,"to":5} => rejected search 0 K5
{"edge":3,"to":4} => {"edge":3,"to":4,"more":1} => C2 WrongShape
{"edge":3,"to":4} => {"edge":3} => C2 WrongShape
{"edge":3,"to":4} => {"edge":3.5,"to":4} => C6 BadNumber search 0
{"segment":0,"to":2} => {"segment":1,"to":2} => rejected search 0 K5
{"segment":0,"to":2} => {"segment":4294967296,"to":2} => C6 BadNumber search 0
{"segment":0,"to":2} => {"segment":0,"edge":3,"to":2} => C2 WrongShape
,{"to":5}],"walk" => ],"walk" => rejected search 0 K5
"to":5}],"walk":[1,3,2] => "to":5}],"walk":[1] => rejected search 0 K5
"to":5}],"walk":[1,3,2] => "to":5}],"walk":[1,3] => C2 WrongShape
"to":5}],"walk":[1,3,2] => "to":5}],"walk":[] => C2 WrongShape
"to":5}],"walk":[1,3,2] => "to":5}],"walk":[1,3,"2"] => C6 BadNumber search 0
"##;

/// What checking a certificate comes to.
pub(crate) fn checked(alloc: Global, certificate: Vec<u8>) -> Result<Observed, Fail> {
    let mut files = FileList::new(alloc);
    files.push(FileEntry {
        name: Str::of(alloc, "c")?,
        bytes: Bytes::from_vec(certificate),
    })?;
    let words = words_of(alloc, "check c")?;
    call::<Brand>(alloc, &words, files, &NEVER, Blank::new(1))
}

// A text with one change.
fn changed(alloc: Global, text: &str, old: &str, new: &str) -> Result<Vec<u8>, Fail> {
    let (before, after) = text
        .split_once(old)
        .ok_or("what is changed stands in the text")?;
    let mut bytes = before.as_bytes().to_vec(alloc)?;
    bytes.extend_from_slice(new.as_bytes())?;
    bytes.extend_from_slice(after.as_bytes())?;
    Ok(bytes)
}

// Whether a change of a certificate is told as it is due.
fn is_told(alloc: Global, text: &str, change: &str) -> Result<bool, Fail> {
    let (old, rest) = change
        .split_once(" => ")
        .ok_or("a change is OLD => NEW => LINE")?;
    let (new, due) = rest
        .split_once(" => ")
        .ok_or("a change is OLD => NEW => LINE")?;
    let seen = checked(alloc, changed(alloc, text, old, new)?)?;
    let mut line = b"gcore: ".to_vec(alloc)?;
    line.extend_from_slice(due.as_bytes())?;
    line.push(b'\n')?;
    Ok(seen.status == 9 && seen.out.is_empty() && seen.err.as_slice() == line.as_slice())
}

// How many bytes the first beginning of a certificate has that is not told to be no JSON.
fn first_beginning(alloc: Global, text: &[u8]) -> Result<Option<usize>, Fail> {
    for length in 0..text.len() {
        let seen = checked(alloc, text[..length].to_vec(alloc)?)?;
        if seen.status != 9 || seen.err.as_slice() != b"gcore: C1 NotJson\n".as_slice() {
            return Ok(Some(length));
        }
    }
    Ok(None)
}

#[test]
fn each_part_of_a_certificate_counts(rt: HostRuntime) -> Result<(), Fail> {
    let whole = written_out(rt.alloc(), WHOLE)?;
    assert_eq!(rt; first_beginning(rt.alloc(), &whole)?, None);
    let text = String::from_utf8(whole)
        .ok()
        .ok_or("a certificate is text")?;
    assert_eq!(rt;
        checked(rt.alloc(), text.as_bytes().to_vec(rt.alloc())?)?.status,
        0
    );
    for change in CHANGES.trim().lines() {
        assert!(rt; is_told(rt.alloc(), &text, change)?);
    }
    Ok(())
}

#[test]
fn certificates_come_to_what_is_due(rt: HostRuntime) -> Result<(), Fail> {
    assert_eq!(rt; first_failing(rt.alloc(), CASES)?, None);
    Ok(())
}
