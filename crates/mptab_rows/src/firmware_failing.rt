//! Calls of shelf and sink that fail one by one, and files past their limit.

use crate::firmware::answer_beside;
use crate::firmware_usual::{CALLS, MADT, PIR};
use crate::harness::{Answer, image_of, same};
use mptab_cases::usual::usual;
use std::alloc::Global;
use std::process::Abort;
use std::test::Fail;

/// Words, and the file that lies beside the image and the script.
struct Case {
    words: &'static [&'static str],
    file: &'static [u8],
    /// The line where the last call of the shelf fails.
    last: &'static [u8],
}

const CASES: &[Case] = &[
    Case {
        words: &["madt", "image", "0000"],
        file: b"",
        last: b"mptab: cannot read image\n",
    },
    Case {
        words: &["pirmake", "image"],
        file: b"",
        last: b"mptab: cannot read image\n",
    },
    Case {
        words: &["raise", "image"],
        file: b"",
        last: b"mptab: cannot read image\n",
    },
    Case {
        words: &["madtcmp", "image", "0000", "file"],
        file: MADT,
        last: b"mptab: cannot read file\n",
    },
    Case {
        words: &["pircmp", "image", "file"],
        file: PIR,
        last: b"mptab: cannot read file\n",
    },
    Case {
        words: &["pic", "image", "script", "file"],
        file: CALLS,
        last: b"mptab: cannot read file\n",
    },
];

/// The answer to a case whose call of the shelf with this number fails, and whose put with that.
fn failing(alloc: Global, image: &[u8], case: &Case, call: u64, put: u64) -> Result<Answer, Fail> {
    answer_beside(alloc, case.words, image, case.file, call, put)
}

/// Whether a case whose call of the shelf fails, and whose put, is answered so.
fn fails_so(
    alloc: Global,
    image: &[u8],
    case: &Case,
    (call, put): (u64, u64),
    status: u8,
    text: &[u8],
) -> Result<bool, Fail> {
    let answer = failing(alloc, image, case, call, put)?;
    Ok(answer.is(status, text))
}

/// How many calls of the shelf a case makes: one that fails behind the last changes nothing.
fn calls_of(alloc: Global, image: &[u8], case: &Case) -> Result<u64, Fail> {
    for call in 1..100 {
        if failing(alloc, image, case, call, 0)?.status != 4 {
            return Ok(call - 1);
        }
    }
    Err("a case makes too many calls".into())
}

/// Asserts that each failing call is told, and which file the first and the last were for.
fn tells_failures(rt: &impl Abort, alloc: Global, image: &[u8], case: &Case) -> Result<(), Fail> {
    let calls = calls_of(alloc, image, case)?;
    let line = b"mptab: cannot read image\n";
    let first = fails_so(alloc, image, case, (1, 0), 4, line)?;
    same(rt, "the first call", first, true);
    let last = fails_so(alloc, image, case, (calls, 0), 4, case.last)?;
    same(rt, "the last call", last, true);
    let put = fails_so(alloc, image, case, (0, 1), 5, b"")?;
    same(rt, "the first put", put, true);
    Ok(())
}

/// Asserts it of each case.
fn each_tells_failures(rt: &impl Abort, alloc: Global, image: &[u8]) -> Result<(), Fail> {
    for case in CASES {
        tells_failures(rt, alloc, image, case)?;
    }
    Ok(())
}

#[test]
fn failures(rt: HostRuntime) -> Result<(), Fail> {
    let image = image_of(rt.alloc(), usual())?;
    each_tells_failures(&rt, rt.alloc(), image.as_slice())
}

/// Whether these words are answered so with a file of 1,048,577 bytes.
fn is_past_limit(alloc: Global, image: &[u8], words: &[&str]) -> Result<bool, Fail> {
    let bytes = vec![in alloc; 0u8; 1048577]?;
    let answer = answer_beside(alloc, words, image, bytes.as_slice(), 0, 0)?;
    Ok(answer.is(10, b"mptab: too large file 1048577\n"))
}

/// A MADT, a routing table and calls.
const READ: &[&[&str]] = &[
    &["madtcmp", "image", "0000", "file"],
    &["pircmp", "image", "file"],
    &["pic", "image", "script", "file"],
];

/// Asserts that none of them is read past its limit.
fn each_has_its_limit(rt: &impl Abort, alloc: Global, image: &[u8]) -> Result<(), Fail> {
    for words in READ {
        let right = is_past_limit(alloc, image, words)?;
        same(rt, "a file past its limit", right, true);
    }
    Ok(())
}

#[test]
fn limits(rt: HostRuntime) -> Result<(), Fail> {
    let image = image_of(rt.alloc(), usual())?;
    each_has_its_limit(&rt, rt.alloc(), image.as_slice())
}
