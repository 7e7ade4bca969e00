// Each call on the folder, on the output and on the error output of some calls of the program fails once. A
// file of these is read by two calls: one that gets it whole, and one that finds its end.
ghost use Rattle.std.specs.Prelude.{◌<◌};

use super::{Failing, NEVER, Observed, seen};
use std::alloc::Global;
use std::test::Fail;

// A call of the program, and the files in the order in which they are read.
struct Whole {
    words: &'static str,
    files: &'static str,
    read: &'static [&'static str],
}

const PERSONS: Whole = Whole {
    words: "run q g=a",
    files: "a: «labels»\nq: CONSTRUCT (v) MATCH (v:Person)",
    read: &["a", "a", "q", "q"],
};

const BACKWARDS: Whole = Whole {
    words: "run q g=a",
    files: "a: {\"gcore\":1,\"nodes\":[{\"id\":2},{\"id\":3}],\"edges\":[{\"id\":12,\"from\":2,\"to\":3}],\"paths\":[{\"id\":50,\"walk\":[3,12,2]}]}\nq: CONSTRUCT (n)-/@p/->(m) MATCH (n)-/@p/->(m)",
    read: &["a", "a", "q", "q"],
};

const FRIENDS: Whole = Whole {
    words: "run q social=w",
    files: "q: «friends»\nw: «W»",
    read: &["w", "w", "q", "q"],
};

const CERTIFIED: Whole = Whole {
    words: "cert q g=a",
    files: "a: «Arc»\nq: CONSTRUCT (x) MATCH (x)-/p<:A*>/->(y)",
    read: &["a", "a", "q", "q"],
};

const SUM_PAST_RANGE: Whole = Whole {
    words: "run q S=s",
    files: "q: CONSTRUCT (n {x := 9223372036854775807 + 1}) MATCH (n)\ns: «S»",
    read: &["s", "s", "q", "q"],
};

// The output takes ten bytes a call, so that there are several.
const TEN_BYTES: Failing<'static> = Failing {
    folder_fails: &[],
    out_fails: &[],
    err_fails: &[],
    out_most: 10,
};

// Where a call on the folder fails, the program names the file and writes nothing.
fn reads_fail(alloc: Global, whole: &Whole) -> Result<bool, Fail> {
    let calm = seen(alloc, whole.words, whole.files, &NEVER)?;
    for (number, name) in whole.read.iter().enumerate() {
        let fails = [number as u64];
        let failing = Failing {
            folder_fails: &fails,
            ..NEVER
        };
        let seen = seen(alloc, whole.words, whole.files, &failing)?;
        if !is_unread(&seen, name) {
            return Ok(false);
        }
    }
    Ok(calm.folder_calls == whole.read.len() as u64)
}

fn is_unread(seen: &Observed, name: &str) -> bool {
    let line = seen.err.strip_prefix(b"gcore: cannot read ");
    let told = line.and_then(|rest| rest.strip_suffix(b"\n"));
    seen.status == 6 && seen.out.is_empty() && told == Some(name.as_bytes())
}

// Where a call on the output fails, what was written begins the whole text, and no call follows.
fn writes_fail(alloc: Global, whole: &Whole) -> Result<bool, Fail> {
    let calm = seen(alloc, whole.words, whole.files, &TEN_BYTES)?;
    for number in 0..calm.out_calls {
        let fails = [number];
        let failing = Failing {
            out_fails: &fails,
            ..TEN_BYTES
        };
        let seen = seen(alloc, whole.words, whole.files, &failing)?;
        if !is_unwritten(&seen, &calm.out, number) {
            return Ok(false);
        }
    }
    Ok(calm.status == 0 && calm.out_calls > 8)
}

fn is_unwritten(seen: &Observed, text: &[u8], number: u64) -> bool {
    let is_last = seen.out_calls.checked_sub(number) == Some(1);
    seen.status == 7
        && text.starts_with(&seen.out)
        && is_last
        && seen.err.as_slice() == b"gcore: cannot write\n".as_slice()
}

// Where a call on the error output fails, the status stands, and what was told begins the line.
fn tellings_fail(alloc: Global, whole: &Whole, line: &str) -> Result<bool, Fail> {
    let calm = seen(alloc, whole.words, whole.files, &NEVER)?;
    for number in 0..calm.err_calls {
        let fails = [number];
        let failing = Failing {
            err_fails: &fails,
            ..NEVER
        };
        let seen = seen(alloc, whole.words, whole.files, &failing)?;
        if seen.status != 1 || !seen.out.is_empty() || !line.as_bytes().starts_with(&seen.err) {
            return Ok(false);
        }
    }
    Ok(calm.err.as_slice() == line.as_bytes() && calm.err_calls > 0)
}

#[test]
fn each_call_fails_once(rt: HostRuntime) -> Result<(), Fail> {
    let alloc = rt.alloc();
    for whole in [&PERSONS, &BACKWARDS, &FRIENDS, &CERTIFIED] {
        assert!(rt; reads_fail(alloc, whole)?);
        assert!(rt; writes_fail(alloc, whole)?);
    }
    let line = "gcore: F1 Overflow 1:15 row 0\n";
    assert!(rt; tellings_fail(alloc, &SUM_PAST_RANGE, line)?);
    Ok(())
}
