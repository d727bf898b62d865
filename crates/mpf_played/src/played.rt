//! The text of calls on the board that the round robin leaves.

ghost use Rattle.std.specs.Prelude.{◌≡◌, ◌<◌, ◌^◌, IfOk};
ghost use Rattle.std.specs.List.{AllByRecursion};
ghost use Rattle.mpb_spec.specs.Plan.{plan_size};
ghost use Rattle.mpb_spec.specs.Pulses.{logs_of};
ghost use Rattle.mpb_robin.specs.RoundRobin.{IsRoundRobinOf};
ghost use Rattle.mpf_pic_lines.specs.Lines.{IsPlayable};
ghost use Rattle.mpf_played.specs.Played.{IsPlayedBehind};

use mpb_board::Board;
use mpb_run::{Ran, round_robin};
use mpb_spec::Config;
use mpf_pic::{PicOp, Wiring, play};
use mpt_base::NoMemory;
use mpt_route::Platform;
use std::alloc::Global;

// the board of the config, run to its end
fn ran(alloc: Global, config: Config) -> Result<Ran, NoMemory>
    requires small { plan_size config < 2 ^ 32 }
    ensures plan { IfOk result (λ ran. ran.board.plan ≡ config) }
    ensures robin { IfOk result (λ ran. IsRoundRobinOf config ran.board.journal (logs_of ran.account)) }
{
    match Board::new(alloc, config) {
        Ok(board) => round_robin(alloc, board),
        Err(error) => Err(error),
    }
}

/// The text of the calls on a pair at power-on, whose INTR is wired as the round robin of the config's
/// board leaves it. It takes memory for the run and the text, and fails only where that runs out.
pub fn play_behind(
    alloc: Global,
    config: Config,
    p: &Platform,
    ops: &[PicOp],
) -> Result<Vec<u8>, NoMemory>
    requires small { plan_size config < 2 ^ 32 }
    requires playable { AllByRecursion IsPlayable ops.now }
    ensures { IfOk result (λ text. IsPlayedBehind config p.now ops.now text.items) }
{
    match ran(alloc, config) {
        Ok(ran) => play(alloc, Wiring::of(&ran.board, p), ops),
        Err(error) => Err(error),
    }
}
