//! The config of a board, or why there is none.

ghost use Rattle.std.specs.Prelude.{◌≡◌, ◌<◌, ◌^◌, None, Some, IfOk, IfErr};
ghost use Rattle.mpt_route.specs.Routes.{routes_of};
ghost use Rattle.mpb_spec.specs.declared.fault.BoardError.{BoardError as ABoardError};
ghost use Rattle.mpb_spec.specs.Configs.{IsStartableAt};
ghost use Rattle.mpb_spec.specs.Plan.{plan_size};
ghost use Rattle.mpb_spec.specs.Room.{room};
ghost use Rattle.mpb_script.specs.Values.{HasScriptValues};
ghost use Rattle.mpb_setup.specs.Board.{enabled_ids, io_ids, board_ids, board_config_of};
ghost use Rattle.mpb_setup.specs.Faults.{board_fault_of};
ghost use Rattle.mpb_setup.specs.Answers.{IsCauseOf, AnswersConfig, AnswersFault};

use crate::faults::board_fault;
use crate::ids::{board_ids, enabled_ids, io_ids};
use crate::making::made;
use mpb_script::Script;
use mpb_spec::{BoardError, Config};
use mpt_route::{Answer, Platform};
use std::alloc::Global;

/// The config of a platform under a script: the enabled processors that the script lists as present, or
/// all, each with its words; the boot processor has the boot program before its words. The answers are
/// the platform's routes.
///
/// # Errors
///
/// The first of these: there is no boot processor; two enabled processors share an id, or two enabled I/O
/// APICs; an enabled processor has the id 255; the boot id is 15 or above; the boot processor isn't
/// present; there are more than 8 processors on the board; there are more than 4 enabled I/O APICs; a
/// word of a board's processor or of a device names a place at which there is no I/O APIC. Or want of
/// memory.
pub fn config(
    alloc: Global,
    p: &Platform,
    answers: &[Answer],
    s: &Script,
) -> Result<Config, BoardError>
    requires answers { answers.now ≡ routes_of p.now s.now.elcr }
    requires values { HasScriptValues s.now }
    ensures config { IfOk result (λ c. c ≡ board_config_of p.now answers.now s.now) }
    ensures fault { IfErr result (IsCauseOf p.now s.now) }
    // Each answer comes exactly where it is right, unless memory runs out.
    ensures only_config { board_fault_of p.now s.now ≡ None → AnswersConfig result (board_config_of p.now answers.now s.now) }
    ensures only_fault { (f : ABoardError) → board_fault_of p.now s.now ≡ Some f → AnswersFault result f }
    // The boot program starts each other processor at the script's page.
    ensures startable { IfOk result (IsStartableAt s.now.page) }
    ensures small { IfOk result (λ c. plan_size c < 2 ^ 32) }
    ensures room { IfOk result (λ c. room c < 850000) }
{
    let Ok(enabled) = enabled_ids(alloc, p) else {
        return Err(BoardError::NoMemory);
    };
    let Ok(ios) = io_ids(alloc, p) else {
        return Err(BoardError::NoMemory);
    };
    let Ok(board) = board_ids(alloc, p, enabled.as_slice(), s) else {
        return Err(BoardError::NoMemory);
    };
    answer(
        alloc,
        p,
        answers,
        s,
        enabled.as_slice(),
        board.as_slice(),
        ios,
    )
}

// the answer, with the ids of the enabled processors, of the board's processors and of the enabled I/O
// APICs
fn answer(
    alloc: Global,
    p: &Platform,
    answers: &[Answer],
    s: &Script,
    enabled: &[u8],
    board: &[u8],
    ios: Vec<u8>,
) -> Result<Config, BoardError>
    requires answers { answers.now ≡ routes_of p.now s.now.elcr }
    requires values { HasScriptValues s.now }
    requires enabled { enabled.now ≡ enabled_ids p.now }
    requires board { board.now ≡ board_ids p.now s.now }
    requires ios { ios.items ≡ io_ids p.now }
    ensures config { IfOk result (λ c. c ≡ board_config_of p.now answers.now s.now) }
    ensures fault { IfErr result (IsCauseOf p.now s.now) }
    ensures only_config { board_fault_of p.now s.now ≡ None → AnswersConfig result (board_config_of p.now answers.now s.now) }
    ensures only_fault { (f : ABoardError) → board_fault_of p.now s.now ≡ Some f → AnswersFault result f }
    ensures startable { IfOk result (IsStartableAt s.now.page) }
    ensures small { IfOk result (λ c. plan_size c < 2 ^ 32) }
    ensures room { IfOk result (λ c. room c < 850000) }
{
    if let Some(fault) = board_fault(p, s, enabled, ios.as_slice(), board) {
        return Err(fault);
    }
    match made(alloc, p, answers, s, board, ios) {
        Ok(config) => Ok(config),
        Err(_) => Err(BoardError::NoMemory),
    }
}
