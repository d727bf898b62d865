//! A config of its parts, where there is no fault.

ghost use Rattle.std.specs.Prelude.{◌≡◌, None, IfOk};
ghost use Rattle.mpt_route.specs.Routes.{routes_of};
ghost use Rattle.mpb_script.specs.Values.{HasScriptValues};
ghost use Rattle.mpb_setup.specs.Boot.{boot_id_of};
ghost use Rattle.mpb_setup.specs.Board.{enabled_ids, io_ids, board_ids, board_config_of};
ghost use Rattle.mpb_setup.specs.Faults.{board_fault_of};
ghost use Rattle.mpb_spec.specs.Numbers.{AreBytes};

use crate::boot::program;
use crate::programs::{cpu_configs, device_words};
use mpb_script::Script;
use mpb_spec::Config;
use mpt_route::{Answer, Platform, boot_processor_of};
use std::alloc::{AllocError, Global};

// the boot processor's id, 0 where there is none
fn boot_id(p: &Platform) -> u8
    ensures { result ≡ boot_id_of p.now }
{
    match boot_processor_of(p) {
        Some(e) => e.apic,
        None => 0,
    }
}

/// The config, of the ids of the board's processors and those of the enabled I/O APICs.
#[tactic(auto, unfolding(crate::specs::Board::board_config_of))]
pub fn made(
    alloc: Global,
    p: &Platform,
    answers: &[Answer],
    s: &Script,
    board: &[u8],
    ios: Vec<u8>,
) -> Result<Config, AllocError>
    requires answers { answers.now ≡ routes_of p.now s.now.elcr }
    requires values { HasScriptValues s.now }
    requires no_fault { board_fault_of p.now s.now ≡ None }
    requires bytes { AreBytes (enabled_ids p.now) }
    requires board { board.now ≡ board_ids p.now s.now }
    requires ios { ios.items ≡ io_ids p.now }
    ensures { IfOk result (λ c. c ≡ board_config_of p.now answers.now s.now) }
{
    let boot = boot_id(p);
    let Ok(boot_program) = program(alloc, p, boot, answers, s.page) else {
        return Err(AllocError);
    };
    let boot_len = boot_program.len() as u32;
    let Ok(cpus) = cpu_configs(alloc, p, boot, boot_program.as_slice(), s, board) else {
        return Err(AllocError);
    };
    let Ok(devices) = device_words(alloc, s.devices.as_slice()) else {
        return Err(AllocError);
    };
    Ok(Config {
        boot,
        boot_len,
        cpus,
        ios,
        imcr: p.imcr,
        devices,
    })
}
