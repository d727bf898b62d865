//! What the rows share.

ghost use Rattle.std.specs.Prelude.{◌<◌, ◌^◌, IfSome};
ghost use Rattle.mpb_spec.specs.Plan.{plan_size};

use mpb_board::{Board, Config};
use mpb_crew::{Gate, threads};
use mpb_run::Ran;
use std::alloc::Global;
use std::fmt::Debug;
use std::process::Abort;
use std::sync::Wait;
use std::test::Fail;
use std::thread::Threads;

/// The board of the config at its end, after a run by threads.
pub fn ran<R: Threads + Wait + Sync, G: Gate + Sync>(
    rt: &R,
    alloc: Global,
    config: Option<Config>,
    gate: &G,
) -> Result<Ran, Fail>
    requires { IfSome config (λ c. plan_size c < 2 ^ 32) }
{
    let config = config.ok_or("no config")?;
    let board = Board::new(alloc, config)?;
    Ok(threads(rt, alloc, board, gate)?)
}

/// Asserts that a call gave what was wanted.
pub fn same<T: PartialEq + Debug + Drop>(rt: &impl Abort, name: &str, got: T, want: T) {
    assert_eq!(rt; got, want, "{name}");
}
