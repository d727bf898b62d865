//! Words that are no form, files that aren't there, and calls of shelf and sink that fail one by one.

use crate::board::{HEAD, board_with};
use crate::harness::{
    Answer, NAME, answer_of, answer_over, image_with, same, shelf_with, sink_of, words_of,
};
use mpt_base::MemShelf;
use mptab_calls::run;
use mptab_cases::images::{POINTER, Piece, SMALL_POINTER, WORD};
use std::alloc::Global;
use std::process::Abort;
use std::sync::Wait;
use std::test::Fail;
use std::thread::Threads;

/// The listing of the board with one processor, whose pointer is at 500h.
const LISTING: &str = "mptable 1
pointer at 00000500 table 00000510 revision 04 features 0000000000
header revision 04 oem \"MPTAB   \" product \"BOARD       \" oemtable 00000000 oemsize 0000 local FEE00000 reserved 00
processor id 00 version 10 flags 03 signature 00000520 features 000001BF reserved 0000000000000000
end
";

const USAGE: &str = "mptab: usage\n";

/// Words, and the status and text that answer them.
struct Case {
    words: &'static [&'static str],
    status: u8,
    text: &'static str,
}

/// No file but the board's is there.
const WORDS: &[Case] = &[
    Case {
        words: &[],
        status: 2,
        text: USAGE,
    },
    Case {
        words: &["show"],
        status: 2,
        text: USAGE,
    },
    Case {
        words: &["show", NAME, NAME],
        status: 2,
        text: USAGE,
    },
    Case {
        words: &["Show", NAME],
        status: 2,
        text: USAGE,
    },
    Case {
        words: &["show ", NAME],
        status: 2,
        text: USAGE,
    },
    Case {
        words: &["", NAME],
        status: 2,
        text: USAGE,
    },
    Case {
        words: &[NAME, "show"],
        status: 2,
        text: USAGE,
    },
    Case {
        words: &["show", ""],
        status: 3,
        text: "mptab: no file \n",
    },
    Case {
        words: &["show", "x"],
        status: 3,
        text: "mptab: no file x\n",
    },
    Case {
        words: &["show", NAME],
        status: 0,
        text: LISTING,
    },
];

fn cases() -> &'static [Case] {
    WORDS
}

/// The pieces of the board's image, which ends with the table.
const SMALL_BOARD: &[Piece] = &[WORD, SMALL_POINTER, Piece::Table(0x510)];

/// The board in an image of 1 MiB.
const BOARD: &[Piece] = &[POINTER, Piece::Table(0xF0010)];

/// A shelf with the board's image, of which a call fails; 0 is none.
fn small_board(alloc: Global, failing: u64) -> Result<MemShelf, Fail> {
    let image = image_with(alloc, 0x550, SMALL_BOARD)?;
    shelf_with(alloc, image.as_slice(), failing)
}

/// The answer to these words, where no call fails.
fn small_answer(alloc: Global, words: &[&str]) -> Result<Answer, Fail> {
    let mut shelf = small_board(alloc, 0)?;
    answer_of(alloc, words, &mut shelf, 0)
}

/// Whether a case is answered as it says.
fn is_answered(alloc: Global, case: &Case) -> Result<bool, Fail> {
    let answer = small_answer(alloc, case.words)?;
    Ok(answer.is(case.status, case.text.as_bytes()))
}

#[test]
fn words(rt: HostRuntime) -> Result<(), Fail> {
    for case in cases() {
        let right = is_answered(rt.alloc(), case)?;
        same(&rt, case.text, right, true);
    }
    Ok(())
}

/// What `run` itself answers to `show`, with a runtime that may start threads.
fn top_answer<R: Threads + Wait + Sync>(
    rt: &R,
    alloc: Global,
    shelf: &mut MemShelf,
) -> Result<Answer, Fail> {
    let words = words_of(alloc, &["show", NAME])?;
    let mut sink = sink_of(alloc, 0)?;
    let status = run(rt, alloc, words.as_slice(), shelf, &mut sink);
    Answer::with(alloc, status, &sink)
}

/// What it answers over the board.
fn top_answer_of_board<R: Threads + Wait + Sync>(rt: &R, alloc: Global) -> Result<Answer, Fail> {
    let mut shelf = small_board(alloc, 0)?;
    top_answer(rt, alloc, &mut shelf)
}

#[test]
fn top_call(rt: HostRuntime) -> Result<(), Fail> {
    let answer = top_answer_of_board(&rt, rt.alloc())?;
    same(&rt, "the status", answer.status, 0);
    same(&rt, "the text", answer.text.as_slice(), LISTING.as_bytes());
    Ok(())
}

/// For runs outside the gate, in each of which one allocation fails: this test alone accepts status 9. Where
/// its own image or words wanted the memory, it ends with that error.
#[test]
fn want_of_memory(rt: HostRuntime) -> Result<(), Fail> {
    let answer = small_answer(rt.alloc(), &["show", NAME])?;
    let refused = answer.is(9, b"mptab: no memory\n");
    assert!(rt; refused || answer.is(0, LISTING.as_bytes()));
    Ok(())
}

/// More calls than the shelf or the sink has in any of these runs.
const MANY: u64 = 64;

/// A shelf with the board in an image of 1 MiB, of which a call fails; 0 is none.
fn large_board(alloc: Global, failing: u64) -> Result<MemShelf, Fail> {
    let image = image_with(alloc, 0x100000, BOARD)?;
    shelf_with(alloc, image.as_slice(), failing)
}

/// The answer of `show` to the board in an image of 1 MiB, where a call of the shelf fails. No more is asked
/// for than the windows let.
fn board_answer(alloc: Global, failing: u64) -> Result<Answer, Fail> {
    let mut shelf = large_board(alloc, failing)?;
    let answer = answer_of(alloc, &["show", NAME], &mut shelf, 0)?;
    if shelf.asked_bytes() > 197_694 {
        return Err("more was asked for than the windows let".into());
    }
    Ok(answer)
}

/// Calls of the shelf fail one by one, until a run meets no failure and is accepted; the number of calls.
fn failing_calls(alloc: Global) -> Result<u64, Fail> {
    for call in 1..MANY {
        let answer = board_answer(alloc, call)?;
        if answer.status == 0 {
            return Ok(call - 1);
        }
        if !answer.is(4, b"mptab: cannot read board.img\n") {
            return Err("a failed call has another answer".into());
        }
    }
    Err("each run meets a failure".into())
}

#[test]
fn calls_of_the_shelf(rt: HostRuntime) -> Result<(), Fail> {
    let calls = failing_calls(rt.alloc())?;
    assert!(rt; calls >= 3, "the third call is inside the reading");
    Ok(())
}

/// Whether a run whose put failed ended with status 5 and with less than the text.
fn is_cut(answer: &Answer, text: &[u8]) -> bool {
    answer.status == 5 && text.starts_with(answer.text.as_slice()) && answer.text.len() < text.len()
}

/// Puts of the sink fail one by one, until a run meets no failure and gives the text; the number of puts.
fn failing_puts(alloc: Global, words: &[&str], image: &[u8], text: &[u8]) -> Result<u64, Fail> {
    for put in 1..MANY {
        let answer = answer_over(alloc, words, NAME, image, put)?;
        if answer.text.as_slice() == text {
            return Ok(put - 1);
        }
        if !is_cut(&answer, text) {
            return Err("a failed put has another answer".into());
        }
    }
    Err("each run meets a failure".into())
}

/// Asserts that each case makes a put, over this image.
fn each_case_has_puts(rt: &impl Abort, alloc: Global, image: &[u8]) -> Result<(), Fail> {
    for case in cases() {
        let puts = failing_puts(alloc, case.words, image, case.text.as_bytes())?;
        assert!(rt; puts > 0, "a put is made");
    }
    Ok(())
}

#[test]
fn puts_of_the_sink(rt: HostRuntime) -> Result<(), Fail> {
    let image = image_with(rt.alloc(), 0x550, SMALL_BOARD)?;
    each_case_has_puts(&rt, rt.alloc(), image.as_slice())
}

/// 200 buses.
fn many_buses(alloc: Global) -> Result<Vec<u8>, Fail> {
    let mut base = Vec::new(alloc);
    for _ in 0..200 {
        base.extend_from_slice(b"\x01\x07ISA   ")?;
    }
    board_with(alloc, base.as_slice(), 200, &[])
}

/// Their listing, which is longer than a piece of 4,096 bytes.
fn many_lines(alloc: Global) -> Result<Vec<u8>, Fail> {
    let mut text = Vec::from_slice(alloc, HEAD.as_bytes())?;
    for _ in 0..200 {
        text.extend_from_slice(b"bus id 07 name \"ISA   \"\n")?;
    }
    text.extend_from_slice(b"end\n")?;
    Ok(text)
}

#[test]
fn puts_of_a_long_text(rt: HostRuntime) -> Result<(), Fail> {
    let image = many_buses(rt.alloc())?;
    let text = many_lines(rt.alloc())?;
    let puts = failing_puts(
        rt.alloc(),
        &["show", NAME],
        image.as_slice(),
        text.as_slice(),
    )?;
    same(&rt, "the pieces of 4,096 bytes", puts, 2);
    Ok(())
}
