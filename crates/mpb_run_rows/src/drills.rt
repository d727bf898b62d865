//! Boards of drills by threads: how many entries there are depends on the schedule, and all else comes to
//! the numbers of the round robin.

ghost use Rattle.std.specs.Prelude.{◌<◌, ◌^◌, IfOk};
ghost use Rattle.mpt_route.specs.Platform.{IsSmallPlatform};
ghost use Rattle.mpb_spec.specs.Plan.{plan_size};
ghost use Rattle.mpb_script.specs.Values.{HasScriptValues};

use crate::harness::same;
use mpb_board::{Board, Config};
use mpb_crew::{NoGate, threads};
use mpb_drill::{drill_script, drill_tables, drills_have_boards};
use mpb_run::round_robin;
use mpb_script::Script;
use mpb_setup::config;
use mpb_tally::{Tally, tally_of};
use mpt_route::{Platform, platform_of, routes};
use std::alloc::Global;
use std::process::Abort;
use std::sync::Wait;
use std::test::Fail;
use std::thread::Threads;

/// The platform of a drill's tables.
fn platform_for(alloc: Global, n: u32) -> Result<Platform, Fail>
    requires { n < 10000 }
    ensures { IfOk result IsSmallPlatform }
{
    drills_have_boards();
    let tables = drill_tables(alloc, n)?;
    Ok(platform_of(alloc, &tables)?)
}

/// The script of a drill.
fn script_for(alloc: Global, n: u32) -> Result<Script, Fail>
    requires { n < 10000 }
    ensures { IfOk result HasScriptValues }
{
    drills_have_boards();
    Ok(drill_script(alloc, n)?)
}

/// The config of a platform and a script.
fn configured(alloc: Global, platform: &Platform, script: &Script) -> Result<Config, Fail>
    requires small { IsSmallPlatform platform.now }
    requires values { HasScriptValues script.now }
    ensures { IfOk result (λ c. plan_size c < 2 ^ 32) }
{
    let answers = routes(alloc, platform, script.elcr)?;
    Ok(config(alloc, platform, answers.as_slice(), script)?)
}

/// The config of a platform and the script of a drill.
fn with_script(alloc: Global, platform: &Platform, n: u32) -> Result<Config, Fail>
    requires drill { n < 10000 }
    requires small { IsSmallPlatform platform.now }
    ensures { IfOk result (λ c. plan_size c < 2 ^ 32) }
{
    let script = script_for(alloc, n)?;
    configured(alloc, platform, &script)
}

/// The config of a drill's board.
fn config_for(alloc: Global, n: u32) -> Result<Config, Fail>
    requires { n < 10000 }
    ensures { IfOk result (λ c. plan_size c < 2 ^ 32) }
{
    let platform = platform_for(alloc, n)?;
    with_script(alloc, &platform, n)
}

/// What a run by threads comes to.
fn tally_by_threads<R: Threads + Wait + Sync>(
    rt: &R,
    alloc: Global,
    config: Config,
) -> Result<Tally, Fail>
    requires { plan_size config < 2 ^ 32 }
{
    let board = Board::new(alloc, config)?;
    let ran = threads(rt, alloc, board, &NoGate)?;
    Ok(tally_of(&ran.board, &ran.account))
}

/// What the round robin comes to.
fn tally_in_turns(alloc: Global, config: Config) -> Result<Tally, Fail>
    requires { plan_size config < 2 ^ 32 }
{
    let board = Board::new(alloc, config)?;
    let ran = round_robin(alloc, board)?;
    Ok(tally_of(&ran.board, &ran.account))
}

/// The processors that were started, all pulses, those that were New and Merged, and the vectors that were
/// set and taken.
fn numbers(tally: Tally) -> [u64; 6] {
    [
        tally.started,
        tally.pulses,
        tally.fresh,
        tally.merged,
        tally.sets,
        tally.takes,
    ]
}

/// The numbers of a drill's board by threads.
fn by_threads<R: Threads + Wait + Sync>(rt: &R, alloc: Global, n: u32) -> Result<[u64; 6], Fail>
    requires { n < 10000 }
{
    let config = config_for(alloc, n)?;
    Ok(numbers(tally_by_threads(rt, alloc, config)?))
}

/// The numbers of a drill's board by the round robin.
fn in_turns(alloc: Global, n: u32) -> Result<[u64; 6], Fail>
    requires { n < 10000 }
{
    let config = config_for(alloc, n)?;
    Ok(numbers(tally_in_turns(alloc, config)?))
}

/// Asserts the numbers of a drill's board, by threads and by the round robin.
fn comes_to<R: Threads + Wait + Abort + Sync>(
    rt: &R,
    alloc: Global,
    n: u32,
    wanted: [u64; 6],
) -> Result<(), Fail>
    requires { n < 10000 }
{
    same(rt, "by threads", by_threads(rt, alloc, n)?, wanted);
    same(rt, "in turns", in_turns(alloc, n)?, wanted);
    Ok(())
}

/// Drills of two, eight and five processors: each pin is pulsed once, so each pulse is New, and the boot
/// processor takes the vectors of all pins and of all other processors.
#[test]
fn drill_threads(rt: HostRuntime) -> Result<(), Fail> {
    comes_to(&rt, rt.alloc(), 0, [1, 24, 24, 0, 25, 25])?;
    comes_to(&rt, rt.alloc(), 6, [7, 72, 72, 0, 79, 79])?;
    comes_to(&rt, rt.alloc(), 9999, [4, 96, 96, 0, 100, 100])
}
