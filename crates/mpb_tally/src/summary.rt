//! The summary of a drill.

ghost use Rattle.std.specs.Prelude.{◌≡◌, ◌<◌, ◌≤◌, ◌^◌, ◌++◌, None, count_by, IfOk, OnOk, length, sum_by};
ghost use Rattle.std.specs.List.{concat};
ghost use Rattle.mpt_route.specs.Platform.{platform_of, IsSmallPlatform};
ghost use Rattle.mpb_spec.specs.Pulses.{logs_of};
ghost use Rattle.mpb_robin.specs.RoundRobin.{IsRoundRobinOf};
ghost use Rattle.mpb_spec.specs.Plan.{plan_size};
ghost use Rattle.mpb_spec.specs.declared.fault.BoardError.TheVariants as fault;
ghost use Rattle.mpb_drill.specs.Drill.{drill_tables, drill_script};
ghost use Rattle.mpb_tally.specs.Tally.{tally_of};
ghost use Rattle.mpb_tally.specs.Summary.{is_routed, size_lines, count_lines, summary_of, drill_routes, drill_board, IsSummaryOf};

use crate::counting::tally_of;
use crate::tally::Tally;
use mpb_board::Board;
use mpb_drill::{drill_script, drill_tables, drills_have_boards};
use mpb_run::{Ran, round_robin};
use mpb_setup::config;
use mpb_spec::{BoardError, Config};
use mpt_base::NoMemory;
use mpt_listing::{Part, push_line};
use mpt_route::{Answer, Platform, platform_of, routes};
use std::alloc::{AllocError, Global};

/// The summary of the drill with this number, below 10,000: its board is made of its tables and its
/// script, runs by the round robin, and is counted. It fails only where memory runs out.
pub fn drill_summary(alloc: Global, n: u32) -> Result<Vec<u8>, NoMemory>
    requires { n < 10000 }
    ensures summary { IfOk result (λ text. IsSummaryOf n text.items) }
{
    let Ok((config, routes)) = board_and_routes(alloc, n) else {
        return Err(NoMemory);
    };
    let Ok(ran) = ran(alloc, config) else {
        return Err(NoMemory);
    };
    counted(alloc, n, routes, &ran)
}

// the text of a run of its board
fn counted(alloc: Global, n: u32, routes: u64, ran: &Ran) -> Result<Vec<u8>, NoMemory>
    requires few { sum_by length (logs_of ran.now.account) < 2 ^ 32 }
    ensures text { IfOk result (λ text. text.items ≡ summary_of n routes (tally_of ran.now.board.journal (logs_of ran.now.account))) }
{
    let tally = tally_of(&ran.board, &ran.account);
    match text(alloc, n, routes, tally) {
        Ok(text) => Ok(text),
        Err(_) => Err(NoMemory),
    }
}

// the config of its board, and how many interrupts have a route
fn board_and_routes(alloc: Global, n: u32) -> Result<(Config, u64), NoMemory>
    requires { n < 10000 }
    ensures board { IfOk result (λ x. x.0 ≡ drill_board n) }
    ensures small { IfOk result (λ x. plan_size x.0 < 2 ^ 32) }
    ensures routes { IfOk result (λ x. x.1 ≡ count_by is_routed (drill_routes n)) }
{
    let Ok(platform) = drill_platform(alloc, n) else {
        return Err(NoMemory);
    };
    routed_board(alloc, n, &platform)
}

// the platform of its tables
fn drill_platform(alloc: Global, n: u32) -> Result<Platform, NoMemory>
    requires { n < 10000 }
    ensures platform { IfOk result (λ p. p ≡ platform_of (drill_tables n)) }
    ensures small { IfOk result (λ p. IsSmallPlatform p) }
{
    drills_have_boards();
    let Ok(tables) = drill_tables(alloc, n) else {
        return Err(NoMemory);
    };
    platform_of(alloc, &tables)
}

// the same on its platform
fn routed_board(alloc: Global, n: u32, platform: &Platform) -> Result<(Config, u64), NoMemory>
    requires number { n < 10000 }
    requires platform { platform.now ≡ platform_of (drill_tables n) }
    requires small { IsSmallPlatform platform.now }
    ensures board { IfOk result (λ x. x.0 ≡ drill_board n) }
    ensures small { IfOk result (λ x. plan_size x.0 < 2 ^ 32) }
    ensures routes { IfOk result (λ x. x.1 ≡ count_by is_routed (drill_routes n)) }
{
    let Ok(answers) = routes(alloc, platform, 0) else {
        return Err(NoMemory);
    };
    match board_of(alloc, n, platform, answers.as_slice()) {
        Ok(config) => Ok((config, routed_in(answers.as_slice()))),
        Err(error) => Err(error),
    }
}

// the config of its board; nothing speaks against it
fn board_of(
    alloc: Global,
    n: u32,
    platform: &Platform,
    answers: &[Answer],
) -> Result<Config, NoMemory>
    requires number { n < 10000 }
    requires platform { platform.now ≡ platform_of (drill_tables n) }
    requires answers { answers.now ≡ drill_routes n }
    ensures board { IfOk result (λ c. c ≡ drill_board n) }
    ensures small { IfOk result (λ c. plan_size c < 2 ^ 32) }
{
    drills_have_boards();
    let Ok(script) = drill_script(alloc, n) else {
        return Err(NoMemory);
    };
    match config(alloc, platform, answers, &script) {
        Ok(config) => Ok(config),
        Err(error) => Err(no_memory(error)),
    }
}

// the one refusal where nothing speaks against the board
fn no_memory(error: BoardError) -> NoMemory
    requires { error ≡ fault.NoMemory }
{
    let _ = error;
    NoMemory
}

// the board, run to its end
fn ran(alloc: Global, config: Config) -> Result<Ran, NoMemory>
    requires small { plan_size config < 2 ^ 32 }
    ensures robin { IfOk result (λ ran. IsRoundRobinOf config ran.board.journal (logs_of ran.account)) }
    ensures few { IfOk result (λ ran. sum_by length (logs_of ran.account) < 2 ^ 32) }
{
    match Board::new(alloc, config) {
        Ok(board) => round_robin(alloc, board),
        Err(error) => Err(error),
    }
}

// how many interrupts have a route
fn routed_in(answers: &[Answer]) -> u64
    ensures { result ≡ count_by is_routed answers.now }
{
    answers.iter().filter(|a| is_routed(a)).count() as u64
}

fn is_routed(answer: &Answer) -> bool
    ensures { result ≡ is_routed answer.now }
{
    match answer {
        Answer::Routed(_) => true,
        Answer::Unrouted { .. } => false,
    }
}

// the text
fn text(alloc: Global, n: u32, routes: u64, tally: Tally) -> Result<Vec<u8>, AllocError>
    ensures { IfOk result (λ text. text.items ≡ summary_of n routes tally) }
{
    let mut out = Vec::new(alloc);
    match push_summary(&mut out, n, routes, tally) {
        Ok(()) => Ok(out),
        Err(error) => Err(error),
    }
}

fn push_summary(out: &mut Vec<u8>, n: u32, routes: u64, tally: Tally) -> Result<(), AllocError>
    ensures { OnOk result (out.new.items ≡ out.old.items ++ summary_of n routes tally) }
{
    let processors = u64::from(2 + n % 7);
    let ioapics = u64::from(1 + n % 4);
    match push_sizes(
        out,
        u64::from(n),
        processors,
        tally.started,
        ioapics,
        routes,
    ) {
        Ok(()) => push_counts(out, tally),
        Err(error) => Err(error),
    }
}

// the lines of the sizes
fn push_sizes(
    out: &mut Vec<u8>,
    n: u64,
    processors: u64,
    started: u64,
    ioapics: u64,
    routes: u64,
) -> Result<(), AllocError>
    ensures { OnOk result (out.new.items ≡ out.old.items ++ concat (size_lines n processors started ioapics routes)) }
{
    if let Err(error) = push_line(out, &[Part::Text(b"drill "), Part::Decimal(n)]) {
        return Err(error);
    }
    if let Err(error) = push_line(
        out,
        &[
            Part::Text(b"processors "),
            Part::Decimal(processors),
            Part::Text(b" started "),
            Part::Decimal(started),
        ],
    ) {
        return Err(error);
    }
    push_line(
        out,
        &[
            Part::Text(b"ioapics "),
            Part::Decimal(ioapics),
            Part::Text(b" routes "),
            Part::Decimal(routes),
        ],
    )
}

// the lines of the counts, and the last
fn push_counts(out: &mut Vec<u8>, tally: Tally) -> Result<(), AllocError>
    ensures { OnOk result (out.new.items ≡ out.old.items ++ concat (count_lines tally)) }
{
    if let Err(error) = push_line(
        out,
        &[Part::Text(b"entries "), Part::Decimal(tally.entries)],
    ) {
        return Err(error);
    }
    if let Err(error) = push_line(
        out,
        &[
            Part::Text(b"pulses "),
            Part::Decimal(tally.pulses),
            Part::Text(b" new "),
            Part::Decimal(tally.fresh),
            Part::Text(b" merged "),
            Part::Decimal(tally.merged),
        ],
    ) {
        return Err(error);
    }
    if let Err(error) = push_line(
        out,
        &[
            Part::Text(b"set "),
            Part::Decimal(tally.sets),
            Part::Text(b" taken "),
            Part::Decimal(tally.takes),
        ],
    ) {
        return Err(error);
    }
    push_line(out, &[Part::Text(b"end")])
}
