//! What every theme stands on: the answer to a script as one line of text.

use mpb_script::{KeyName, ScriptFault, WordWhy, parse};
use mpb_spec::Agent;
use std::alloc::{AllocError, Global};
use std::fmt::Debug;
use std::process::Abort;

/// A text, or words, and the line of the answer.
pub(crate) type Row = (&'static str, &'static str);

/// The name of a key in a line.
fn key_name(name: KeyName) -> &'static str {
    match name {
        KeyName::Page => "page",
        KeyName::Elcr => "elcr",
        KeyName::Present => "present",
        KeyName::Cpu => "cpu",
        KeyName::CpuId => "cpu.id",
        KeyName::CpuWords => "cpu.words",
        KeyName::Device => "device",
        KeyName::DeviceWords => "device.words",
        KeyName::Unknown => "unknown",
    }
}

/// The name of a cause in a line.
fn why_name(why: WordWhy) -> &'static str {
    match why {
        WordWhy::Name => "Name",
        WordWhy::Count => "Count",
        WordWhy::Number => "Number",
        WordWhy::Range => "Range",
    }
}

/// The line of a wrong word.
fn word_line(alloc: Global, agent: Agent, index: u32, why: &str) -> Result<String, AllocError> {
    match agent {
        Agent::Cpu(id) => format!(in alloc; "word cpu {id:02X} index {index} {why}"),
        Agent::Io(place) => format!(in alloc; "word io {place} index {index} {why}"),
        Agent::Dev(number) => format!(in alloc; "word dev {number} index {index} {why}"),
    }
}

/// The line of a fault.
fn fault_line(alloc: Global, fault: ScriptFault) -> Result<String, AllocError> {
    match fault {
        ScriptFault::NotToml => String::from_str(alloc, "not toml"),
        ScriptFault::Key { name } => format!(in alloc; "key {}", key_name(name)),
        ScriptFault::Many { n } => format!(in alloc; "many {n}"),
        ScriptFault::Word { agent, index, why } => word_line(alloc, agent, index, why_name(why)),
        ScriptFault::NoMemory => String::from_str(alloc, "no memory"),
    }
}

/// The answer to a text, as a line.
pub(crate) fn answer_line(alloc: Global, text: &[u8]) -> Result<String, AllocError> {
    match parse(alloc, text) {
        Ok(_) => String::from_str(alloc, "script"),
        Err(fault) => fault_line(alloc, fault),
    }
}

/// Asserts that a call gave what was wanted.
pub(crate) fn same<T: PartialEq + Debug + Drop>(rt: &impl Abort, name: &str, got: T, want: T) {
    assert_eq!(rt; got, want, "{name}");
}

/// Asserts the answer to a text, which has this name.
pub(crate) fn answers(rt: &impl Abort, alloc: Global, name: &str, text: &[u8], line: &str) {
    let answer = answer_line(alloc, text).expect(rt, "out of memory");
    same(rt, name, answer.as_str(), line);
}

/// Asserts the answer to the text of each row.
pub(crate) fn answers_texts(rt: &impl Abort, alloc: Global, rows: &[Row]) {
    for (text, line) in rows {
        answers(rt, alloc, text, text.as_bytes(), line);
    }
}

/// The script whose processor 7 has this array of words.
fn cpu_script(alloc: Global, words: &str) -> Result<String, AllocError> {
    format!(in alloc; "page = 1\ncpu = [{{ id = 7, words = [{words}] }}]")
}

/// The script whose third device has this array of words.
fn device_script(alloc: Global, words: &str) -> Result<String, AllocError> {
    format!(in alloc;
        "page = 1\ndevice = [{{ words = [] }}, {{ words = [] }}, {{ words = [{words}] }}]"
    )
}

/// Asserts the answer to a script that was made of these words.
fn answers_words(
    rt: &impl Abort,
    alloc: Global,
    words: &str,
    made: Result<String, AllocError>,
    line: &str,
) {
    let text = made.expect(rt, "out of memory");
    answers(rt, alloc, words, text.as_str().as_bytes(), line);
}

/// Asserts the answer to the words of each row in a processor's program.
pub(crate) fn answers_cpu_words(rt: &impl Abort, alloc: Global, rows: &[Row]) {
    for (words, line) in rows {
        answers_words(rt, alloc, words, cpu_script(alloc, words), line);
    }
}

/// Asserts the answer to the words of each row in a device's program.
pub(crate) fn answers_device_words(rt: &impl Abort, alloc: Global, rows: &[Row]) {
    for (words, line) in rows {
        answers_words(rt, alloc, words, device_script(alloc, words), line);
    }
}
