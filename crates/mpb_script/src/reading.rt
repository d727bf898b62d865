//! Reading a script.

ghost use Rattle.std.specs.Prelude.{◌≡◌, ◌≤◌, ◌+◌, None, MatchResult, IfOk, IfErr, map, codes, option_map, length};
ghost use Rattle.toml.specs.Data.{get};
ghost use Rattle.toml.specs.View.{view};
ghost use Rattle.mpb_script.specs.declared.script.Script.{Script as ScriptOf};
ghost use Rattle.mpb_script.specs.declared.script.ScriptFault.{ScriptFault as FaultOf};
ghost use Rattle.mpb_script.specs.Document.{number_in, elements};
ghost use Rattle.mpb_script.specs.Words.{script_fault_of, cpu_tables, device_tables};
ghost use Rattle.mpb_script.specs.Script.{IsScriptOf, HasFault, Describes};
ghost use Rattle.mpb_script.specs.Values.{HasScriptValues};
ghost use Rattle.mpb_script.specs.Answers.{IsCauseOf, AnswersScript, AnswersFault};
ghost use Rattle.mpb_script.specs.Steps.{IsWrong, wrong_words, word_count};

use crate::document::{document, elements_at, number, number_at};
use crate::keys::wrong_key;
use crate::programs::{count_words, cpus, devices};
use crate::script::{Script, ScriptFault};
use mpt_spec::Sequence;
use std::alloc::{AllocError, Global};
use toml::Value;

/// The greatest number of words that a script has.
const MOST_WORDS: u32 = 8192;

// the numbers of an array
fn numbers(alloc: Global, values: &[Value]) -> Result<Sequence<u8>, AllocError>
    ensures { IfOk result (λ v. v ≡ map (number_in 254) (map view values.now)) }
{
    let mut ids = Vec::new(alloc);
    for value in values {
        let Ok(()) = ids.push(number(value, 254) as u8) else {
            return Err(AllocError);
        };
    }
    Ok(Sequence::new(ids))
}

// the numbers of `present`
fn present(alloc: Global, document: &Value) -> Result<Option<Sequence<u8>>, AllocError>
    ensures { IfOk result (λ p. p ≡ option_map (λ v. map (number_in 254) (elements v)) (get (codes "present") (view document.now))) }
{
    match document.get("present") {
        Some(_) => {
            let ids = numbers(alloc, elements_at(document, "present"))?;
            Ok(Some(ids))
        }
        None => Ok(None),
    }
}

// the script of a document whose keys are right
#[tactic(auto, unfolding(crate::specs::Steps::wrong_words))]
fn script(alloc: Global, document: &Value) -> Result<Script, ScriptFault>
    requires cpu_count { word_count (cpu_tables (view document.now)) ≤ 8192 }
    requires device_count { word_count (device_tables (view document.now)) ≤ 8192 }
    requires few { length (device_tables (view document.now)) ≤ 4 }
    ensures { MatchResult result (λ s. Describes (view document.now) s × (wrong_words (view document.now) ≡ None)) (λ e. IsWrong (wrong_words (view document.now)) e) }
{
    let present = match present(alloc, document) {
        Ok(present) => present,
        Err(_) => return Err(ScriptFault::NoMemory),
    };
    let cpus = match cpus(alloc, elements_at(document, "cpu")) {
        Ok(cpus) => cpus,
        Err(fault) => return Err(fault),
    };
    let devices = match devices(alloc, elements_at(document, "device")) {
        Ok(devices) => devices,
        Err(fault) => return Err(fault),
    };
    Ok(Script {
        page: number_at(document, "page", 255) as u8,
        elcr: number_at(document, "elcr", 65535),
        present,
        cpus,
        devices,
    })
}

// the script of a document, or its first fault
fn read(alloc: Global, document: &Value) -> Result<Script, ScriptFault>
    ensures { MatchResult result (λ s. Describes (view document.now) s × (script_fault_of (view document.now) ≡ None)) (λ e. IsWrong (script_fault_of (view document.now)) e) }
{
    if let Some(name) = wrong_key(document) {
        return Err(ScriptFault::Key { name });
    }
    let of_cpus = count_words(elements_at(document, "cpu"));
    let of_devices = count_words(elements_at(document, "device"));
    let n = of_cpus.saturating_add(of_devices);
    if n > MOST_WORDS {
        return Err(ScriptFault::Many { n });
    }
    match script(alloc, document) {
        Ok(script) => Ok(script),
        Err(fault) => Err(fault),
    }
}

// the answer of `parse`, each with its cause
fn answer(alloc: Global, text: &[u8]) -> Result<Script, ScriptFault>
    ensures script { IfOk result (IsScriptOf text.now) }
    ensures refused { IfErr result (IsCauseOf text.now) }
{
    let document = match document(alloc, text) {
        Ok(document) => document,
        Err(fault) => return Err(fault),
    };
    match read(alloc, &document) {
        Ok(script) => Ok(script),
        Err(fault) => Err(fault),
    }
}

/// Reads a script: a TOML document, by the grammar of the crate `toml`.
///
/// Its keys are `page`, needed, a whole number from 0 to 255 but not from A0h to BFh; `elcr`, a whole
/// number up to 65,535, and 0 where it is absent; `present`, an array of whole numbers up to 254; `cpu`,
/// an array of tables with an `id` up to 254 and `words`; and `device`, an array of at most four tables
/// with `words`. `words` is an array of strings. Other keys are refused.
///
/// # Errors
///
/// The first fault: a text that is no document; a wrong or missing key, those of the document before
/// those of the `cpu` tables, those of the `device` tables and further keys; more than 8,192 words; and
/// the first wrong word, processors before devices. Or want of memory.
pub fn parse(alloc: Global, text: &[u8]) -> Result<Script, ScriptFault>
    ensures script { IfOk result (IsScriptOf text.now) }
    ensures refused { IfErr result (IsCauseOf text.now) }
    ensures values { IfOk result HasScriptValues }
    // Each answer comes exactly where it is right, unless memory runs out.
    ensures only_script { (s : ScriptOf) → IsScriptOf text.now s → AnswersScript result s }
    ensures only_fault { (f : FaultOf) → HasFault text.now f → AnswersFault result f }
{
    answer(alloc, text)
}
