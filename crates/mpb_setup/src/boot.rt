//! The boot program.

ghost use Rattle.std.specs.Prelude.{◌≡◌, ◌&&◌, ◌==◌, ◌++◌, not, is_some, true, filter, IfOk, OnOk};
ghost use Rattle.std.specs.List.{flat_map, AllByRecursion};
ghost use Rattle.mpt_route.specs.Platform.{boot_processor_of};
ghost use Rattle.mpb_setup.specs.Boot.{boot_id_of, is_enabled, start_ops, imcr_ops, row_ops, boot_program_of, AreRoutes};
ghost use Rattle.mpb_setup.specs.Steps.{HasPin};

use mpb_spec::{Op, STARTUP_VERSION};
use mpt_base::NoMemory;
use mpt_route::{Answer, Platform, boot_processor_of};
use mpt_spec::Processor;
use std::alloc::{AllocError, Global};

/// What the boot processor does before its own words: it connects the APICs where there is an IMCR,
/// starts each other enabled processor at this page, in table order, and writes the row of each routed
/// interrupt.
///
/// The answers are the platform's routes. It takes memory for the program alone, and fails only where
/// that runs out.
pub fn boot_ops(
    alloc: Global,
    p: &Platform,
    answers: &[Answer],
    page: u8,
) -> Result<Vec<Op>, NoMemory>
    requires boot { is_some (boot_processor_of p.now) ≡ true }
    requires routes { AreRoutes p.now answers.now }
    ensures program { IfOk result (λ ops. ops.items ≡ boot_program_of p.now answers.now page) }
{
    let Some(boot) = boot_processor_of(p) else {
        unreachable!()
    };
    match program(alloc, p, boot.apic, answers, page) {
        Ok(ops) => Ok(ops),
        Err(_) => Err(NoMemory),
    }
}

/// The program, where the boot processor has this id.
pub(crate) fn program(
    alloc: Global,
    p: &Platform,
    boot: u8,
    answers: &[Answer],
    page: u8,
) -> Result<Vec<Op>, AllocError>
    requires boot { boot ≡ boot_id_of p.now }
    requires pins { AllByRecursion HasPin answers.now }
    ensures { IfOk result (λ ops. ops.items ≡ boot_program_of p.now answers.now page) }
{
    let mut ops = Vec::new(alloc);
    match push_program(&mut ops, p, boot, answers, page) {
        Ok(()) => Ok(ops),
        Err(error) => Err(error),
    }
}

fn push_program(
    ops: &mut Vec<Op>,
    p: &Platform,
    boot: u8,
    answers: &[Answer],
    page: u8,
) -> Result<(), AllocError>
    requires boot { boot ≡ boot_id_of p.now }
    requires pins { AllByRecursion HasPin answers.now }
    ensures { OnOk result (ops.new.items ≡ ops.old.items ++ boot_program_of p.now answers.now page) }
{
    if let Err(error) = push_imcr(ops, p.imcr) {
        return Err(error);
    }
    match push_starts(ops, p.processors.as_slice(), boot, page) {
        Ok(()) => push_rows(ops, answers),
        Err(error) => Err(error),
    }
}

// the APICs are connected
fn push_imcr(ops: &mut Vec<Op>, imcr: bool) -> Result<(), AllocError>
    ensures { OnOk result (ops.new.items ≡ ops.old.items ++ imcr_ops imcr) }
{
    if imcr {
        ops.extend_from_slice(&[Op::Imcr])
    } else {
        Ok(())
    }
}

// each enabled processor but the boot processor is started
fn push_starts(
    ops: &mut Vec<Op>,
    processors: &[Processor],
    boot: u8,
    page: u8,
) -> Result<(), AllocError>
    ensures { OnOk result (ops.new.items ≡ ops.old.items ++ flat_map (start_ops page) (filter (λ e. is_enabled e && not (e.apic == boot)) processors.now)) }
{
    for e in processors {
        if is_other(*e, boot) {
            if let Err(error) = push_start(ops, *e, page) {
                return Err(error);
            }
        }
    }
    Ok(())
}

fn is_other(e: Processor, boot: u8) -> bool
    ensures { result ≡ (is_enabled e && not (e.apic == boot)) }
{
    e.is_enabled() && e.apic != boot
}

// one is started
fn push_start(ops: &mut Vec<Op>, e: Processor, page: u8) -> Result<(), AllocError>
    ensures { OnOk result (ops.new.items ≡ ops.old.items ++ start_ops page e) }
{
    if e.version >= STARTUP_VERSION {
        ops.extend_from_slice(&[
            Op::Init(e.apic),
            Op::Pause(10_000),
            Op::Startup(e.apic, page),
            Op::Pause(200),
            Op::Startup(e.apic, page),
            Op::Pause(200),
            Op::Check(e.apic),
        ])
    } else {
        ops.extend_from_slice(&[
            Op::Warm(page),
            Op::Init(e.apic),
            Op::Pause(10_000),
            Op::Check(e.apic),
        ])
    }
}

// each routed interrupt has its row
fn push_rows(ops: &mut Vec<Op>, answers: &[Answer]) -> Result<(), AllocError>
    requires { AllByRecursion HasPin answers.now }
    ensures { OnOk result (ops.new.items ≡ ops.old.items ++ flat_map row_ops answers.now) }
{
    for answer in answers {
        if let Err(error) = push_row(ops, *answer) {
            return Err(error);
        }
    }
    Ok(())
}

// one is written
fn push_row(ops: &mut Vec<Op>, answer: Answer) -> Result<(), AllocError>
    requires { HasPin answer }
    ensures { OnOk result (ops.new.items ≡ ops.old.items ++ row_ops answer) }
{
    match answer {
        Answer::Routed(row) => ops.extend_from_slice(&[
            Op::IoSel(row.io, 0x11 + 2 * row.pin),
            Op::IoWin(row.io, row.high),
            Op::IoSel(row.io, 0x10 + 2 * row.pin),
            Op::IoWin(row.io, row.low),
        ]),
        Answer::Unrouted { .. } => Ok(()),
    }
}
