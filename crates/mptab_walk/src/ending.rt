//! Why the walk over files ends at one of them, and what is said then.

ghost use Rattle.std.specs.Prelude.{◌≡◌, IfOk, IfErr};
ghost use Rattle.mptab_walk.specs.Texts.{too_large_line};
ghost use Rattle.mptab_walk.specs.Walk.{IsDelivered, outside};
ghost use Rattle.mptab_walk.specs.Ending.{ending_status, ending_text, answer_status, answer_text};

use crate::answer::Answer;
use crate::delivery::{deliver_line, deliver_text};
use crate::status::{CANNOT_READ, NO_FILE, NO_MEMORY, TOO_LARGE};
use itoa::Buffer;
use mpt_base::{NoMemory, Sink};

/// Why the walk ends at a file.
#[derive(Drop)]
pub enum Ending {
    /// There is no such file.
    Absent,
    /// It has this many bytes, more than its limit.
    TooLarge(u64),
    /// The shelf failed.
    Unread,
    /// It is read and refused, with this status and line.
    Refused(Answer),
    /// Memory ran out.
    NoMemory,
}

/// Says why the walk ends at the file of this name, and answers the status. It takes no memory.
pub fn refuse<O: Sink>(name: &str, ending: Ending, out: &mut O) -> u8
    ensures { IsDelivered (outside 0 0 0 (O.faults out.old) (O.written out.old))
        (outside 0 0 0 (O.faults out.new) (O.written out.new))
        result (ending_status ending) (ending_text name.now ending) }
{
    match ending {
        Ending::Absent => deliver_line(out, NO_FILE, &[b"mptab: no file ", name.as_bytes()]),
        Ending::Unread => {
            deliver_line(out, CANNOT_READ, &[b"mptab: cannot read ", name.as_bytes()])
        }
        Ending::Refused(answer) => deliver_text(out, answer.status, answer.text.as_slice()),
        Ending::NoMemory => deliver_line(out, NO_MEMORY, &[b"mptab: no memory"]),
        Ending::TooLarge(size) => refuse_size(name, size, out),
    }
}

fn refuse_size<O: Sink>(name: &str, size: u64, out: &mut O) -> u8
    ensures { IsDelivered (outside 0 0 0 (O.faults out.old) (O.written out.old))
        (outside 0 0 0 (O.faults out.new) (O.written out.new))
        result 10 (too_large_line name.now size) }
{
    let mut buffer = Buffer::new();
    let digits = buffer.format(size);
    deliver_line(
        out,
        TOO_LARGE,
        &[
            b"mptab: too large ",
            name.as_bytes(),
            b" ",
            digits.as_bytes(),
        ],
    )
}

/// Delivers the answer, or says that there is no memory for it, and answers the status.
pub(crate) fn deliver_answer<O: Sink>(answer: Result<Answer, NoMemory>, out: &mut O) -> u8
    ensures { IsDelivered (outside 0 0 0 (O.faults out.old) (O.written out.old))
        (outside 0 0 0 (O.faults out.new) (O.written out.new))
        result (answer_status answer) (answer_text answer) }
{
    match answer {
        Ok(answer) => deliver_text(out, answer.status, answer.text.as_slice()),
        Err(NoMemory) => deliver_line(out, NO_MEMORY, &[b"mptab: no memory"]),
    }
}

/// The refusal with this line, or that there is no memory for it.
pub(crate) fn refused(answer: Result<Answer, NoMemory>) -> Ending
    ensures refused { IfOk answer (λ a. result ≡ Ending.Refused a) }
    ensures no_memory { IfErr answer (λ e. result ≡ Ending.NoMemory) }
{
    match answer {
        Ok(answer) => Ending::Refused(answer),
        Err(NoMemory) => Ending::NoMemory,
    }
}
