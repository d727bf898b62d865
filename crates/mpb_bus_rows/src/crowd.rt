//! Threads that take a board to its end: whatever the schedule, what they did is one history.

ghost use Rattle.std.specs.Prelude.{◌<◌, ◌^◌, IfSome};
ghost use Rattle.mpb_spec.specs.Plan.{plan_size};

use crate::boards::crowd;
use crate::crew::work_all;
use crate::harness::{is_at, opened, same};
use crate::walk::walks;
use mpb_board::{Board, Config, Op};
use mpb_cases::two_processors;
use std::alloc::Global;
use std::process::Abort;
use std::sync::Wait;
use std::test::Fail;
use std::thread::Threads;

/// The board of the config at its end, when so many agents have worked in threads.
fn worked<R: Threads + Wait + Abort + Sync>(
    rt: &R,
    alloc: Global,
    config: Option<Config>,
    agents: usize,
) -> Result<Board, Fail>
    requires { IfSome config (λ c. plan_size c < 2 ^ 32) }
{
    let (bus, mut seats) = opened(alloc, config)?;
    same(rt, "seats", seats.len(), agents);
    work_all(rt, &bus, &mut seats);
    Ok(bus.close(seats))
}

#[test]
fn two_threads_make_nine_entries(rt: HostRuntime) -> Result<(), Fail> {
    let config = two_processors(rt.alloc(), &[Op::Pause(1), Op::Pause(1)])?;
    let board = worked(&rt, rt.alloc(), config, 2)?;
    is_at(&rt, &board, 9, true);
    Ok(())
}

/// Asserts that a new board of the crowd makes the entries of this one.
fn is_one_history(rt: &impl Abort, alloc: Global, board: &Board) -> Result<(), Fail> {
    walks(rt, alloc, crowd(alloc)?, board.journal());
    Ok(())
}

#[test]
fn sixteen_threads_make_one_history(rt: HostRuntime) -> Result<(), Fail> {
    let board = worked(&rt, rt.alloc(), crowd(rt.alloc())?, 16)?;
    same(&rt, "whether the board is quiet", board.quiet(), true);
    is_one_history(&rt, rt.alloc(), &board)
}
