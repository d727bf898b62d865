//! The board of tables and a script.

ghost use Rattle.std.specs.Prelude.{◌≡◌, ◌<◌, ◌^◌, None, Some, IfOk, IfErr};
ghost use Rattle.mpt_spec.specs.Canonical.{IsWellFormed};
ghost use Rattle.mpt_route.specs.Platform.{platform_of, IsSmallPlatform};
ghost use Rattle.mpt_route.specs.Routes.{routes_of};
ghost use Rattle.mpb_spec.specs.declared.fault.BoardError.{BoardError as ABoardError};
ghost use Rattle.mpb_spec.specs.Configs.{IsStartableAt};
ghost use Rattle.mpb_spec.specs.Plan.{plan_size};
ghost use Rattle.mpb_spec.specs.Room.{room};
ghost use Rattle.mpb_script.specs.Values.{HasScriptValues};
ghost use Rattle.mpb_setup.specs.Answers.{IsCauseOf};
ghost use Rattle.mpb_setup.specs.Board.{board_config_of};
ghost use Rattle.mpb_setup.specs.Faults.{board_fault_of};
ghost use Rattle.mpb_boards.specs.Boot.{board_of, fault_of};

use mpb_script::Script;
use mpb_setup::config;
use mpb_spec::{BoardError, Config};
use mpt_route::{Platform, platform_of, routes};
use mpt_spec::Tables;
use std::alloc::Global;

/// The config of the board that well-formed tables and a script describe.
///
/// # Errors
///
/// The first reason why they describe none, as `mpb_setup::config` gives it; or want of memory.
pub fn board(alloc: Global, tables: &Tables, script: &Script) -> Result<Config, BoardError>
    requires well_formed { IsWellFormed tables.now }
    requires values { HasScriptValues script.now }
    ensures board { IfOk result (λ c. c ≡ board_of tables.now script.now) }
    ensures sound { IfOk result (λ _. fault_of tables.now script.now ≡ None) }
    ensures fault { IfErr result (IsCauseOf (platform_of tables.now) script.now) }
    ensures startable { IfOk result (IsStartableAt script.now.page) }
    ensures small { IfOk result (λ c. plan_size c < 2 ^ 32) }
    ensures room { IfOk result (λ c. room c < 850000) }
{
    let Ok(platform) = platform_of(alloc, tables) else {
        return Err(BoardError::NoMemory);
    };
    board_on(alloc, &platform, script)
}

// the config of the board of a platform and a script
fn board_on(alloc: Global, platform: &Platform, script: &Script) -> Result<Config, BoardError>
    requires small { IsSmallPlatform platform.now }
    requires values { HasScriptValues script.now }
    ensures board { IfOk result (λ c. c ≡ board_config_of platform.now (routes_of platform.now script.now.elcr) script.now) }
    ensures sound { IfOk result (λ _. board_fault_of platform.now script.now ≡ None) }
    ensures fault { IfErr result (IsCauseOf platform.now script.now) }
    ensures startable { IfOk result (IsStartableAt script.now.page) }
    ensures small { IfOk result (λ c. plan_size c < 2 ^ 32) }
    ensures room { IfOk result (λ c. room c < 850000) }
{
    let Ok(answers) = routes(alloc, platform, script.elcr) else {
        return Err(BoardError::NoMemory);
    };
    match config(alloc, platform, answers.as_slice(), script) {
        Ok(config) => Ok(config),
        Err(error) => Err(error),
    }
}
