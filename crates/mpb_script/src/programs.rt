//! Programs: the words of each table.

ghost use Rattle.std.specs.Prelude.{◌≡◌, ◌≤◌, IfOk, IfErr, map, min, length};
ghost use Rattle.toml.specs.View.{view};
ghost use Rattle.mpb_words.specs.Words.{cpu_op_of, device_word_of};
ghost use Rattle.mpb_script.specs.Document.{text_of};
ghost use Rattle.mpb_script.specs.Steps.{word_count, wrong_word, wrong_cpu_word, wrong_device_word, IsProgram, IsWrong, AreCpus, AreDevices};

use crate::document::{elements_at, number_at, text};
use crate::script::{CpuScript, ScriptFault};
use mpb_spec::{Agent, DevWord, Op};
use mpb_words::{read_cpu_word, read_device_word};
use mpt_spec::Sequence;
use std::alloc::Global;
use toml::Value;

// a count, held at the end of u32
fn held_count(n: usize) -> u32
    ensures { result ≡ min n 4294967295 }
{
    if n < 0xFFFF_FFFF {
        n as u32
    } else {
        0xFFFF_FFFF
    }
}

// how many words the tables have, held at the end of u32
pub(crate) fn count_words(tables: &[Value]) -> u32
    ensures { result ≡ min (word_count (map view tables.now)) 4294967295 }
{
    let mut count: u32 = 0;
    for table in tables {
        count = count.saturating_add(held_count(elements_at(table, "words").len()));
    }
    count
}

// a processor's program, or its first wrong word
fn cpu_program(alloc: Global, agent: Agent, words: &[Value]) -> Result<Sequence<Op>, ScriptFault>
    requires { length words.now ≤ 8192 }
    ensures program { IfOk result (IsProgram cpu_op_of agent (map view words.now)) }
    ensures wrong { IfErr result (IsWrong (wrong_word cpu_op_of agent 0 (map text_of (map view words.now)))) }
{
    let mut program = Vec::new(alloc);
    for (index, word) in words.iter().enumerate() {
        match read_cpu_word(text(word)) {
            Ok(op) => match program.push(op) {
                Ok(()) => {}
                Err(_) => return Err(ScriptFault::NoMemory),
            },
            Err(why) => return Err(ScriptFault::Word {
                agent,
                index: index as u32,
                why,
            }),
        }
    }
    Ok(Sequence::new(program))
}

// a device's program, or its first wrong word
fn device_program(
    alloc: Global,
    agent: Agent,
    words: &[Value],
) -> Result<Sequence<DevWord>, ScriptFault>
    requires { length words.now ≤ 8192 }
    ensures program { IfOk result (IsProgram device_word_of agent (map view words.now)) }
    ensures wrong { IfErr result (IsWrong (wrong_word device_word_of agent 0 (map text_of (map view words.now)))) }
{
    let mut program = Vec::new(alloc);
    for (index, word) in words.iter().enumerate() {
        match read_device_word(text(word)) {
            Ok(op) => match program.push(op) {
                Ok(()) => {}
                Err(_) => return Err(ScriptFault::NoMemory),
            },
            Err(why) => return Err(ScriptFault::Word {
                agent,
                index: index as u32,
                why,
            }),
        }
    }
    Ok(Sequence::new(program))
}

// the processors, or their first wrong word
pub(crate) fn cpus(alloc: Global, tables: &[Value]) -> Result<Sequence<CpuScript>, ScriptFault>
    requires { word_count (map view tables.now) ≤ 8192 }
    ensures cpus { IfOk result (AreCpus (map view tables.now)) }
    ensures wrong { IfErr result (IsWrong (wrong_cpu_word (map view tables.now))) }
{
    let mut cpus = Vec::new(alloc);
    for table in tables {
        let id = number_at(table, "id", 254) as u8;
        let words = elements_at(table, "words");
        let words = match cpu_program(alloc, Agent::Cpu(id), words) {
            Ok(words) => words,
            Err(fault) => return Err(fault),
        };
        match cpus.push(CpuScript { id, words }) {
            Ok(()) => {}
            Err(_) => return Err(ScriptFault::NoMemory),
        }
    }
    Ok(Sequence::new(cpus))
}

// the devices, or their first wrong word
pub(crate) fn devices(
    alloc: Global,
    tables: &[Value],
) -> Result<Sequence<Sequence<DevWord>>, ScriptFault>
    requires few { length tables.now ≤ 4 }
    requires count { word_count (map view tables.now) ≤ 8192 }
    ensures devices { IfOk result (AreDevices (map view tables.now)) }
    ensures wrong { IfErr result (IsWrong (wrong_device_word 0 (map view tables.now))) }
{
    let mut devices = Vec::new(alloc);
    for (number, table) in tables.iter().enumerate() {
        let words = elements_at(table, "words");
        let words = match device_program(alloc, Agent::Dev(number as u8), words) {
            Ok(words) => words,
            Err(fault) => return Err(fault),
        };
        match devices.push(words) {
            Ok(()) => {}
            Err(_) => return Err(ScriptFault::NoMemory),
        }
    }
    Ok(Sequence::new(devices))
}
