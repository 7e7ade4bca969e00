// Calls whose folder or output fails in the middle, and an output that takes one byte at a time. An end that
// fails is asked no more.
ghost use Rattle.std.specs.Prelude.{◌<◌};

use super::{Failing, seen};
use std::alloc::Global;
use std::test::Fail;

const WORDS: &str = "run q g=a";

const FILES: &str = "a: «labels»\nq: CONSTRUCT (v) MATCH (v:Person)";

// A call, how the outside fails, and what the call must come to.
struct End {
    words: &'static str,
    files: &'static str,
    failing: Failing<'static>,
    status: u8,
    out: &'static str,
    out_calls: u64,
    err: &'static str,
}

const FIRST_READ_FAILS: End = End {
    words: WORDS,
    files: FILES,
    failing: Failing {
        folder_fails: &[0],
        out_fails: &[],
        err_fails: &[],
        out_most: 1000,
    },
    status: 6,
    out: "",
    out_calls: 0,
    err: "gcore: cannot read a\n",
};

const FIRST_WRITE_FAILS: End = End {
    words: WORDS,
    files: FILES,
    failing: Failing {
        folder_fails: &[],
        out_fails: &[0],
        err_fails: &[],
        out_most: 1000,
    },
    status: 7,
    out: "",
    out_calls: 1,
    err: "gcore: cannot write\n",
};

const THIRD_WRITE_FAILS: End = End {
    words: WORDS,
    files: FILES,
    failing: Failing {
        folder_fails: &[],
        out_fails: &[2],
        err_fails: &[],
        out_most: 10,
    },
    status: 7,
    out: r#"{"edges":[],"gcore":"#,
    out_calls: 3,
    err: "gcore: cannot write\n",
};

const ONE_BYTE_AT_A_TIME: End = End {
    words: WORDS,
    files: FILES,
    failing: Failing {
        folder_fails: &[],
        out_fails: &[],
        err_fails: &[],
        out_most: 1,
    },
    status: 0,
    out: "{\"edges\":[],\"gcore\":1,\"nodes\":[{\"id\":1,\"labels\":[\"Person\"],\"properties\":{}}],\"paths\":[]}\n",
    out_calls: 89,
    err: "",
};

const FRIENDS_ONE_BYTE_AT_A_TIME: End = End {
    words: "run q social=w",
    files: "q: «friends»\nw: «W»",
    failing: Failing {
        folder_fails: &[],
        out_fails: &[],
        err_fails: &[],
        out_most: 1,
    },
    status: 0,
    out: "{\"edges\":[{\"from\":1,\"id\":21,\"labels\":[\"wagnerFriend\"],\"properties\":{\"score\":[1]},\"to\":2}],\"gcore\":1,\"nodes\":[{\"id\":1,\"labels\":[\"Person\"],\"properties\":{\"firstName\":[\"John\"]}},{\"id\":2,\"labels\":[\"Person\"],\"properties\":{\"firstName\":[\"Peter\"]}}],\"paths\":[]}\n",
    out_calls: 253,
    err: "",
};

fn holds(alloc: Global, end: &End) -> Result<bool, Fail>
    requires { 0 < end.now.failing.out_most }
{
    let seen = seen(alloc, end.words, end.files, &end.failing)?;
    Ok(
        seen.status == end.status
            && seen.out.as_slice() == end.out.as_bytes()
            && seen.out_calls == end.out_calls
            && seen.err.as_slice() == end.err.as_bytes(),
    )
}

#[test]
fn failing_ends_come_to_what_is_due(rt: HostRuntime) -> Result<(), Fail> {
    assert!(rt; holds(rt.alloc(), &FIRST_READ_FAILS)?);
    assert!(rt; holds(rt.alloc(), &FIRST_WRITE_FAILS)?);
    assert!(rt; holds(rt.alloc(), &THIRD_WRITE_FAILS)?);
    assert!(rt; holds(rt.alloc(), &ONE_BYTE_AT_A_TIME)?);
    assert!(rt; holds(rt.alloc(), &FRIENDS_ONE_BYTE_AT_A_TIME)?);
    Ok(())
}
