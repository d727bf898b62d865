//! Words that are no form, files that aren't there, and calls of shelf and sink that fail one by one.

use crate::boots::harness::{answer_of, answer_to, script_of, shelf_of};
use crate::harness::{Answer, same};
use mpt_base::MemShelf;
use mptab_cases::boots::failing::words;
use mptab_cases::boots::{BOTH, Case, IMAGE, NOTHING, ONE, REPORT, SCRIPT};
use std::alloc::Global;
use std::sync::Wait;
use std::test::Fail;
use std::thread::Threads;

/// A floating pointer at 400h whose last bytes are the word that names 400h, with default configuration 8.
const BAD_POINTER: &[u8] = b"_MP_\x00\x00\x00\x00\x01\x04\x58\x08\x00\x00\x40\x00";

/// An image that ends with it.
fn bad_image(alloc: Global) -> Result<Vec<u8>, Fail> {
    let mut bad = vec![in alloc; 0; 0x400]?;
    bad.extend_from_slice(BAD_POINTER)?;
    Ok(bad)
}

/// A shelf with one processor's image, a script without words, and this file.
fn shelf_beside(alloc: Global, name: &str, bytes: &[u8]) -> Result<MemShelf, Fail> {
    let mut shelf = shelf_of(alloc, &ONE, b"page = 0x9F\n")?;
    shelf.add(name, bytes)?;
    Ok(shelf)
}

/// The shelf of these rows.
fn shelf_of_words(alloc: Global) -> Result<MemShelf, Fail> {
    let bad = bad_image(alloc)?;
    shelf_beside(alloc, "bad", bad.as_slice())
}

/// Whether a case is answered as it says.
fn is_answered<R: Threads + Wait + Sync>(
    rt: &R,
    alloc: Global,
    case: &Case,
    shelf: &mut MemShelf,
) -> Result<bool, Fail> {
    let answer = answer_of(rt, alloc, case.words, shelf, 0)?;
    Ok(answer.is(case.status, case.text))
}

#[test]
fn board_words(rt: HostRuntime) -> Result<(), Fail> {
    let mut shelf = shelf_of_words(rt.alloc())?;
    for case in words() {
        let right = is_answered(&rt, rt.alloc(), case, &mut shelf)?;
        same(&rt, "the answer", (case.words, right), (case.words, true));
    }
    Ok(())
}

#[test]
fn board_top_call(rt: HostRuntime) -> Result<(), Fail> {
    let answer = answer_to(&rt, rt.alloc(), "boot", &ONE, b"page = 0x9F\n")?;
    same(&rt, "the report", answer.is(0, NOTHING), true);
    Ok(())
}

/// The answer to these words, where a call of the shelf fails and a put of the sink; 0 is none.
fn with_failures<R: Threads + Wait + Sync>(
    rt: &R,
    alloc: Global,
    words: &[&str],
    shelf: &mut MemShelf,
    call: u64,
    put: u64,
) -> Result<Answer, Fail> {
    shelf.fail(call)?;
    answer_of(rt, alloc, words, shelf, put)
}

/// A shelf with one processor that waits 200 times.
fn long_shelf(alloc: Global) -> Result<MemShelf, Fail> {
    let script = script_of(alloc, "\"pause 1\",", 200, 0)?;
    shelf_of(alloc, &ONE, script.as_slice())
}

/// The answer of a command to it, where a call of the shelf fails and a put of the sink; 0 is none.
fn long_answer<R: Threads + Wait + Sync>(
    rt: &R,
    alloc: Global,
    command: &str,
    call: u64,
    put: u64,
) -> Result<Answer, Fail> {
    let mut shelf = long_shelf(alloc)?;
    with_failures(rt, alloc, &[command, IMAGE, SCRIPT], &mut shelf, call, put)
}

/// Writes the line of such an entry.
fn push_pause(alloc: Global, text: &mut String, k: u32) -> Result<(), Fail> {
    let line = format!(in alloc; "{k} cpu 00 pause 1 : done\n")?;
    text.push_str(line.as_str())?;
    Ok(())
}

/// Its report, which is longer than a piece of 4,096 bytes and no longer than two.
fn long_report(alloc: Global) -> Result<String, Fail> {
    let mut text = String::from_str(alloc, "mpboot 1\nentries 200\n")?;
    for k in 0..200 {
        push_pause(alloc, &mut text, k)?;
    }
    text.push_str("state imcr none\nstate cpu 00 first tpr 00 irr - isr - tmr -\nend\n")?;
    Ok(text)
}

const IMAGE_UNREAD: &str = "mptab: cannot read board.img\n";

const SCRIPT_UNREAD: &str = "mptab: cannot read boot.toml\n";

/// A call of the shelf that fails, and the line: of the image its size, two words, the EBDA's area, header and
/// table; of the script its size and its bytes.
const CALLS: &[(u64, &str)] = &[
    (1, IMAGE_UNREAD),
    (2, IMAGE_UNREAD),
    (3, IMAGE_UNREAD),
    (4, IMAGE_UNREAD),
    (5, IMAGE_UNREAD),
    (6, IMAGE_UNREAD),
    (7, SCRIPT_UNREAD),
    (8, SCRIPT_UNREAD),
];

/// Whether this call's failure is answered by this line.
fn is_unread<R: Threads + Wait + Sync>(
    rt: &R,
    alloc: Global,
    command: &str,
    call: u64,
    line: &str,
) -> Result<bool, Fail> {
    let answer = long_answer(rt, alloc, command, call, 0)?;
    Ok(answer.is(4, line.as_bytes()))
}

/// The first call of the shelf whose failure has another answer.
fn first_wrong_call<R: Threads + Wait + Sync>(
    rt: &R,
    alloc: Global,
    command: &str,
) -> Result<Option<u64>, Fail> {
    for (call, line) in CALLS {
        if !is_unread(rt, alloc, command, *call, line)? {
            return Ok(Some(*call));
        }
    }
    Ok(None)
}

#[test]
fn board_calls_of_the_shelf(rt: HostRuntime) -> Result<(), Fail> {
    for command in BOTH {
        let wrong = first_wrong_call(&rt, rt.alloc(), command)?;
        same(&rt, command, wrong, None);
    }
    Ok(())
}

/// The words of a replay.
const REPLAY: &[&str] = &["replay", IMAGE, SCRIPT, REPORT];

/// Whether `replay` answers so to the report of one processor without words, where a call of the shelf fails and a
/// put of the sink; 0 is none.
fn is_replayed<R: Threads + Wait + Sync>(
    rt: &R,
    alloc: Global,
    failing: (u64, u64),
    status: u8,
    text: &str,
) -> Result<bool, Fail> {
    let mut shelf = shelf_beside(alloc, REPORT, NOTHING)?;
    let answer = with_failures(rt, alloc, REPLAY, &mut shelf, failing.0, failing.1)?;
    Ok(answer.is(status, text.as_bytes()))
}

const REPORT_UNREAD: &str = "mptab: cannot read report.txt\n";

/// The report's size and its bytes.
const OF_REPORT: &[(u64, &str)] = &[(9, REPORT_UNREAD), (10, REPORT_UNREAD)];

/// The first of these calls of the shelf whose failure a replay answers by another line.
fn first_unlike<R: Threads + Wait + Sync>(
    rt: &R,
    alloc: Global,
    calls: &[(u64, &str)],
) -> Result<Option<u64>, Fail> {
    for (call, line) in calls {
        if !is_replayed(rt, alloc, (*call, 0), 4, line)? {
            return Ok(Some(*call));
        }
    }
    Ok(None)
}

#[test]
fn calls_of_the_shelf_by_a_replay(rt: HostRuntime) -> Result<(), Fail> {
    let wrong = first_unlike(&rt, rt.alloc(), CALLS)?;
    same(&rt, "calls that a boot makes too", wrong, None);
    let wrong = first_unlike(&rt, rt.alloc(), OF_REPORT)?;
    same(&rt, "calls of the report", wrong, None);
    let right = is_replayed(&rt, rt.alloc(), (11, 0), 0, "replay legal\n")?;
    same(&rt, "there are ten calls", right, true);
    Ok(())
}

#[test]
fn puts_of_the_sink_by_a_replay(rt: HostRuntime) -> Result<(), Fail> {
    let right = is_replayed(&rt, rt.alloc(), (0, 1), 5, "")?;
    same(&rt, "the put fails", right, true);
    let right = is_replayed(&rt, rt.alloc(), (0, 2), 0, "replay legal\n")?;
    same(&rt, "there is one put", right, true);
    Ok(())
}

/// A call of the shelf and a put of the sink that fail, the status, and the most bytes of the report that are
/// written. There are eight calls and two puts.
type Put = (u64, u64, u8, usize);

const PUTS: &[Put] = &[(0, 1, 5, 0), (0, 2, 5, 4096), (9, 3, 0, 8192), (8, 1, 5, 0)];

/// Whether an answer is this status with no more than so many bytes of the report.
fn is_cut(answer: &Answer, status: u8, whole: &[u8], most: usize) -> bool {
    let written = whole.get(..most).unwrap_or(whole);
    answer.status == status && answer.text.as_slice() == written
}

/// Whether this put's failure is answered so.
fn is_written<R: Threads + Wait + Sync>(
    rt: &R,
    alloc: Global,
    command: &str,
    put: &Put,
    report: &[u8],
) -> Result<bool, Fail> {
    let answer = long_answer(rt, alloc, command, put.0, put.1)?;
    Ok(is_cut(&answer, put.2, report, put.3))
}

/// The first put whose failure has another answer.
fn first_wrong_put<R: Threads + Wait + Sync>(
    rt: &R,
    alloc: Global,
    command: &str,
    report: &[u8],
) -> Result<Option<(u64, u64)>, Fail> {
    for put in PUTS {
        if !is_written(rt, alloc, command, put, report)? {
            return Ok(Some((put.0, put.1)));
        }
    }
    Ok(None)
}

#[test]
fn board_puts_of_the_sink(rt: HostRuntime) -> Result<(), Fail> {
    let report = long_report(rt.alloc())?;
    for command in BOTH {
        let wrong = first_wrong_put(&rt, rt.alloc(), command, report.as_str().as_bytes())?;
        same(&rt, command, wrong, None);
    }
    Ok(())
}

/// Whether `trace` answers by this status, or by want of memory, where this call of the shelf fails and this put.
fn is_right_or_refused<R: Threads + Wait + Sync>(
    rt: &R,
    alloc: Global,
    call: u64,
    put: u64,
    status: u8,
) -> Result<bool, Fail> {
    let answer = long_answer(rt, alloc, "trace", call, put)?;
    Ok(answer.status == status || answer.is(9, b"mptab: no memory\n"))
}

/// For runs outside the gate, in each of which one allocation fails: this test alone accepts status 9. Where its
/// own image, script or words wanted the memory, it ends with that error.
#[test]
fn board_want_of_memory(rt: HostRuntime) -> Result<(), Fail> {
    for (call, put, status) in [(0, 0, 0), (7, 0, 4), (8, 0, 4), (0, 1, 5), (0, 2, 5)] {
        let right = is_right_or_refused(&rt, rt.alloc(), call, put, status)?;
        same(&rt, "the status", (status, right), (status, true));
    }
    Ok(())
}
